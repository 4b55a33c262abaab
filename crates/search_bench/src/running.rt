//! From the lines to what is printed.

use crate::inputs::{Order, Task, task_of};
use crate::models::model_of;
use crate::searching::search;
use crate::telling::{tell_end, tell_tree};
use sp_model::Model;
use sp_search::State;
use std::alloc::Global;
use std::io;
use std::io::Write;

/// Searches the model of the lines as the first line says, and prints what came of it.
pub fn run<W: Write>(out: &mut W, alloc: Global, text: &str) -> io::Result<()> {
    match model_of(alloc, text) {
        Some(model) => run_model(out, alloc, model, &task_of(text)),
        None => out.write_all(b"no model\n"),
    }
}

/// Owns the state of the search.
fn run_model<W: Write>(out: &mut W, alloc: Global, model: Model, task: &Task) -> io::Result<()> {
    match State::new(alloc, model) {
        Ok(mut state) => run_state(out, &mut state, task),
        Err(_) => out.write_all(b"no memory\n"),
    }
}

fn run_state<W: Write>(out: &mut W, state: &mut State, task: &Task) -> io::Result<()> {
    match search(state, task) {
        Ok(end) => {
            tell_end(out, state, &end)?;
            match task.order {
                Order::Usual => Ok(()),
                _ => tell_tree(out, state),
            }
        }
        Err(_) => out.write_all(b"no memory\n"),
    }
}
