//! The lines of solutions. Nothing here takes memory: only the sink can answer that there is none.
ghost use Rattle.std.specs.Prelude.{◌≡◌, ◌<◌, ◌≤◌, ◌^◌, ◌++◌, length, codes, slice_index_or, unsigned_abs, pos};
ghost use Rattle.sp_base.specs.Writing.{Writes};
ghost use Rattle.sp_decimal.specs.DecimalFraction.{most_places};
ghost use Rattle.sp_model.specs.Boxes.{IsWithin};
ghost use Rattle.sp_model.specs.Models.{root_of};
ghost use Rattle.sp_draft.specs.SolutionLines.{in_user_direction, objective_text, named_value, named_values, point_line, solution_line};

use crate::naming::Names;
use itoa::Buffer;
use sp_base::{Sink, SinkEnd, texts_grow, texts_join, write_all, write_each};
use sp_decimal::print;
use sp_model::{Model, Point, VarId};

/// Prints a variable with its value, where that isn't zero.
#[tactic(auto, unfolding(crate::specs::SolutionLines::named_value))]
fn print_value<K: Sink>(sink: &mut K, name: &[u8], value: &i64) -> Result<(), SinkEnd>
    ensures written { Writes K.Sink result sink.old sink.new (named_value name.now value.now) }
{
    texts_join();
    if *value == 0 {
        return Ok(());
    }
    let mut buffer = Buffer::new();
    let digits = buffer.format(*value).as_bytes();
    let blank = b" ";
    write_each(sink, &[blank, name, blank, digits])
}

/// Prints the variables that aren't zero with their values, in declared order.
fn print_values<K: Sink>(sink: &mut K, names: &Names, values: &[i64]) -> Result<(), SinkEnd>
    requires { length values.now ≡ length names.now }
    ensures written { Writes K.Sink result sink.old sink.new (named_values names.now values.now) }
{
    texts_grow();
    for at in 0..names.len() {
        match print_value(sink, names.name(VarId::new(at as u32)), &values[at]) {
            Err(end) => return Err(end),
            Ok(()) => {}
        }
    }
    Ok(())
}

/// An objective in the user's direction: negated back where the user maximises.
fn user_value(maximize: bool, value: &i128) -> i128
    requires { unsigned_abs value.now ≤ 10 ^ 36 }
    ensures { result ≡ in_user_direction maximize value.now }
{
    if maximize { -*value } else { *value }
}

/// Prints an objective, a blank and a colon.
fn print_objective<K: Sink>(
    sink: &mut K,
    maximize: bool,
    places: u8,
    value: &i128,
) -> Result<(), SinkEnd>
    requires small { unsigned_abs value.now ≤ 10 ^ 36 }
    requires places { places ≤ most_places }
    ensures written { Writes K.Sink result sink.old sink.new (objective_text maximize places value.now ++ codes " :") }
{
    let shown = print(user_value(maximize, value), places);
    write_each(sink, &[shown.as_bytes(), b" :"])
}

/// Prints the objective of a line and the variables that aren't zero.
fn print_front<K: Sink>(
    sink: &mut K,
    names: &Names,
    maximize: bool,
    places: u8,
    value: &i128,
    values: &[i64],
) -> Result<(), SinkEnd>
    requires long { length values.now ≡ length names.now }
    requires small { unsigned_abs value.now ≤ 10 ^ 36 }
    requires places { places ≤ most_places }
    ensures written { Writes K.Sink result sink.old sink.new (objective_text maximize places value.now ++ codes " :" ++ named_values names.now values.now) }
{
    texts_join();
    match print_objective(sink, maximize, places, value) {
        Err(end) => Err(end),
        Ok(()) => print_values(sink, names, values),
    }
}

/// Prints the line of a point of this objective.
fn print_line<K: Sink>(
    sink: &mut K,
    names: &Names,
    maximize: bool,
    places: u8,
    value: &i128,
    values: &[i64],
) -> Result<(), SinkEnd>
    requires long { length values.now ≡ length names.now }
    requires small { unsigned_abs value.now ≤ 10 ^ 36 }
    requires places { places ≤ most_places }
    ensures written { Writes K.Sink result sink.old sink.new (point_line names.now maximize places value.now values.now) }
{
    texts_join();
    match print_front(sink, names, maximize, places, value, values) {
        Err(end) => Err(end),
        Ok(()) => write_all(sink, b"\n"),
    }
}

/// Prints the line of a point of the model, which has a value for each name: the objective as a decimal in the user's
/// direction and unit, a blank and a colon, and for each variable that isn't zero, in declared order, a blank, its name, a
/// blank and its value; then a line feed.
///
/// It takes no memory of its own.
///
/// # Errors
///
/// What the sink answers; a front part of the line went out.
pub fn solution_line<K: Sink>(
    names: &Names,
    model: &Model,
    x: &Point,
    sink: &mut K,
) -> Result<(), SinkEnd>
    requires within { IsWithin (root_of model.now) x.now }
    requires named { length x.now ≡ length names.now }
    ensures written { Writes K.Sink result sink.old sink.new (solution_line names.now model.now x.now) }
{
    let parts = model.parts();
    let value = model.value(x);
    print_line(
        sink,
        names,
        parts.maximize,
        parts.scale,
        &value,
        x.as_slice(),
    )
}
