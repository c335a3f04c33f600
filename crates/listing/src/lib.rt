// Transition systems as text, for people and for other programs.
#![tactic(auto)]

ghost use Rattle.std.specs.Prelude.{◌≡◌, ◌++◌, IfOk, string_bytes, OnOk};
ghost use Rattle.listing.specs.Listing.{ways_text, listing_of};

use actions::action::Action;
use lts::System;
use std::alloc::{AllocError, Global};

// The lines of all ways of a state.
fn write_moves<S: System>(out: &mut String, system: &S, state: u16) -> Result<(), AllocError>
    ensures { OnOk result (string_bytes out.new ≡ string_bytes out.old ++ ways_text state ((S.System.means system.now).ways state)) }
{
    // A system is asked by numbers and lends no list, so a chain would only wrap the two questions in closures.
    for k in 0..system.ways(state) {
        if let Some((number, target)) = system.way(state, k) {
            // The limits of systems say that the number is that of an action.
            let action = Action::try_from(number).unwrap();
            writeln!(out, "{state},{action},{target}")?;
        }
    }
    Ok(())
}

// The lines of the whole system.
fn write_system<S: System>(out: &mut String, system: &S) -> Result<(), AllocError>
    ensures { OnOk result (string_bytes out.new ≡ string_bytes out.old ++ listing_of (S.System.means system.now)) }
{
    let states = system.states();
    let start = system.start();
    writeln!(out, "states,{states}")?;
    writeln!(out, "start,{start}")?;
    // by number, as above
    for state in 0..states {
        write_moves(out, system, state)?;
    }
    Ok(())
}

// A system as text: how many states it has, where it starts, and every move. An error is want of memory.
pub fn list<S: System>(heap: Global, system: &S) -> Result<String, AllocError>
    ensures { IfOk result (λ text. string_bytes text ≡ listing_of (S.System.means system.now)) }
{
    let mut text = String::new(heap);
    write_system(&mut text, system)?;
    Ok(text)
}
