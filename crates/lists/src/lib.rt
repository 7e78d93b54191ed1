// Lists of integers: what contracts say of arrays, and the laws of loops over them. No function.

#![tactic(auto)]
