// Runs lists of calls over two systems, read from standard input, and prints every answer or refusal, with the memory
// that the call left.
//
// A case is these lines, in an order that open and settled benches take. An empty line or the end of the input runs it.
//
//     open SHEET SHEET            the left and the right system, with / for byte 10
//     enter ENTRY ..              tt, ff, and.F.G, or.F.G, may.ACTION.F and must.ACTION.F, or COUNT*ENTRY for so many
//     settle
//     rule FORMULA STATE
//     reach FORMULA STATE SIZE    with a path of so many steps
//     alike STATE STATE
//     tell STATE STATE SIZE       with so many lines
//     reopen
//
// A line that cannot be read or is out of turn prints `bad`, at once, and is skipped. A case prints the numbers of
// states of its two systems, and then a line for each call. A refusal has its number, and that of enter its place too.
//
// A step is printed as ACTION,TARGET and a line as MODALITY,ACTION,FIRST,COUNT. The memory that a call is handed has
// action 53, which there is none of, and else the places: 53,0 and 53,1 are a path of two steps, and may,53,0,0 and
// may,53,1,1 are two lines. Of more than eight lines the first three and the last three are printed.
#![tactic(auto)]

mod case;
mod printing;
mod questions;
mod reading;

use crate::case::Case;
use crate::printing::print_case;
use crate::reading::Input;
use std::alloc::Global;

// Takes a line of a case in, and does nothing where it is bad.
fn take(alloc: Global, case: &mut Option<Case>, line: &str) -> anyhow::Result<()> {
    match (Input::read(alloc, line)?, case.as_mut()) {
        (Input::Open(left, right), None) => *case = Some(Case::new(alloc, left, right)),
        (Input::Call(call), Some(case)) => case.add(alloc, call)?,
        _ => anyhow::bail!("out of turn"),
    }
    Ok(())
}

fn run(rt: &HostRuntime) -> anyhow::Result<()> {
    let mut case = None;
    for line in rt.lines(rt.alloc()) {
        let line = line?;
        if !line.as_str().is_empty() {
            // also where memory runs out: what is printed is then not what is expected
            if take(rt.alloc(), &mut case, line.as_str()).is_err() {
                println!(rt; "bad")?;
            }
        } else if let Some(case) = case.take() {
            print_case(rt, case)?;
        }
    }
    if let Some(case) = case {
        print_case(rt, case)?;
    }
    Ok(())
}

fn main(rt: HostRuntime) -> anyhow::Result<()> {
    run(&rt)
}
