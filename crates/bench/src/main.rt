//! The bench program: reads a handover record and then frame sheets from standard input, and writes a line for each sheet.
#![tactic(auto)]

fn main(rt: HostRuntime) -> anyhow::Result<()> {
    bench_output::serve(&mut rt.stdin(), &mut rt.stdout())?;
    Ok(())
}
