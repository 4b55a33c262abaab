//! How much a file has.
ghost use Rattle.std.specs.Prelude.{◌≤◌, ◌^◌, length};

use anyhow::Result;
use sp_lp::read_lp;
use sp_lp_tokens::tokens;
use std::alloc::Global;

/// Prints how many variables, rows and terms of the objective the file has, or its refusal.
pub fn show_sizes<P: Print>(rt: &P, alloc: Global, file: &[u8]) -> Result<()>
    requires { length file.now ≤ 2 ^ 26 }
{
    match read_lp(alloc, file) {
        Ok(draft) => {
            let (vars, rows, cost) = (draft.vars.len(), draft.rows.len(), draft.cost.len());
            println!(rt; "variables {vars} rows {rows} cost {cost}")?;
        }
        Err(refusal) => println!(rt; "{refusal:?}")?,
    }
    Ok(())
}

/// Prints how many tokens the file has, or the first fault of them.
pub fn show_tokens<P: Print>(rt: &P, alloc: Global, file: &[u8]) -> Result<()>
    requires { length file.now ≤ 2 ^ 26 }
{
    match tokens(alloc, file) {
        Ok(list) => {
            let count = list.len();
            println!(rt; "tokens {count}")?;
        }
        Err(refusal) => println!(rt; "{refusal:?}")?,
    }
    Ok(())
}
