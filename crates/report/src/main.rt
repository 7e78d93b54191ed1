//! The shift report: reads a handover record and then frame sheets from standard input, and writes one line of totals.
#![tactic(auto)]

fn main(rt: HostRuntime) -> anyhow::Result<()> {
    shift_report::serve(&mut rt.stdin(), &mut rt.stdout())?;
    Ok(())
}
