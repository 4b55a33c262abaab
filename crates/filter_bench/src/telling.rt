//! A line, what it says to do, and what is printed then.

ghost use Rattle.std.specs.Prelude.{◌≡◌};
ghost use Rattle.sp_model.specs.Models.{root_of};

use crate::asking::{closes_one, count_closings, count_passes, passes_one};
use crate::inputs::{Kind, kind_of, name_of, numbers_of, small_at};
use crate::making::{diversity_of, model_of, point_of, range_of};
use sp_base::Text;
use sp_decimal::Decimal;
use sp_filter::{FilterDraft, FilterId, FilterRefusal, Filters, Held};
use sp_model::{BoxOf, Model, NoMemory, Point};
use std::alloc::Global;
use std::io;
use std::io::Write;

/// Does what the lines say, one after another: `model L U ..` makes a model of variables with these bounds and keeps
/// the filters, `new` drops the filters; `range NAME LO HI J A ..` and `diversity NAME LO HI J W REF ..` add a filter,
/// `-` for no bound; `remove NAME`; `place ID`; `held` lists each filter and whether it fits the model; `point ROUNDS V
/// ..` asks for a point so many times, and `box ROUNDS` for the model's closed box.
pub fn tell_all<W: Write>(out: &mut W, alloc: Global, text: &str) -> io::Result<()> {
    let mut filters = Filters::new(alloc);
    match model_of(alloc, &[]) {
        Some(mut model) => tell_lines(out, alloc, &mut filters, &mut model, text),
        None => out.write_all(b"no model\n"),
    }
}

fn tell_lines<W: Write>(
    out: &mut W,
    alloc: Global,
    filters: &mut Filters,
    model: &mut Model,
    text: &str,
) -> io::Result<()> {
    for line in text.lines() {
        tell(out, alloc, filters, model, line)?;
    }
    Ok(())
}

/// Does what a line says.
fn tell<W: Write>(
    out: &mut W,
    alloc: Global,
    filters: &mut Filters,
    model: &mut Model,
    line: &str,
) -> io::Result<()> {
    match numbers_of(alloc, line) {
        Ok(numbers) => carry_out(out, alloc, filters, model, line, numbers.as_slice()),
        Err(_) => no_memory(out),
    }
}

fn no_memory<W: Write>(out: &mut W) -> io::Result<()> {
    out.write_all(b"no memory\n")
}

fn carry_out<W: Write>(
    out: &mut W,
    alloc: Global,
    filters: &mut Filters,
    model: &mut Model,
    line: &str,
    numbers: &[Option<Decimal>],
) -> io::Result<()> {
    match kind_of(line) {
        Kind::Model => renew_model(out, alloc, model, numbers),
        Kind::New => {
            renew_filters(alloc, filters);
            Ok(())
        }
        Kind::Range => tell_range(out, alloc, filters, model, line, numbers),
        Kind::Diversity => tell_diversity(out, alloc, filters, model, line, numbers),
        Kind::Remove => tell_removed(out, alloc, filters, line),
        _ => answer(out, alloc, filters, model, line, numbers),
    }
}

/// Answers a line that changes nothing.
fn answer<W: Write>(
    out: &mut W,
    alloc: Global,
    filters: &Filters,
    model: &Model,
    line: &str,
    numbers: &[Option<Decimal>],
) -> io::Result<()> {
    let first = small_at(numbers, 0);
    match kind_of(line) {
        Kind::Place => tell_place(out, filters, first),
        Kind::Held => tell_held(out, filters.held(), model),
        Kind::Point => tell_point(out, alloc, filters, model, numbers),
        Kind::Box => tell_box(out, alloc, filters, model, first),
        _ => Ok(()),
    }
}

fn renew_model<W: Write>(
    out: &mut W,
    alloc: Global,
    model: &mut Model,
    numbers: &[Option<Decimal>],
) -> io::Result<()> {
    match model_of(alloc, numbers) {
        Some(new) => {
            *model = new;
            Ok(())
        }
        None => out.write_all(b"no model\n"),
    }
}

fn renew_filters(alloc: Global, filters: &mut Filters) {
    *filters = Filters::new(alloc);
}

fn tell_range<W: Write>(
    out: &mut W,
    alloc: Global,
    filters: &mut Filters,
    model: &Model,
    line: &str,
    numbers: &[Option<Decimal>],
) -> io::Result<()> {
    match range_of(alloc, numbers) {
        Ok(draft) => tell_added(out, filters, model, name_of(alloc, line), draft),
        Err(_) => no_memory(out),
    }
}

fn tell_diversity<W: Write>(
    out: &mut W,
    alloc: Global,
    filters: &mut Filters,
    model: &Model,
    line: &str,
    numbers: &[Option<Decimal>],
) -> io::Result<()> {
    match diversity_of(alloc, numbers) {
        Ok(draft) => tell_added(out, filters, model, name_of(alloc, line), draft),
        Err(_) => no_memory(out),
    }
}

/// Adds the filter, and prints its id or the refusal; nothing where a variable isn't the model's.
fn tell_added<W: Write>(
    out: &mut W,
    filters: &mut Filters,
    model: &Model,
    name: Result<Text, NoMemory>,
    draft: FilterDraft,
) -> io::Result<()> {
    match name {
        Ok(name) => {
            let added = added(filters, model, name, draft);
            writeln!(out, "added {added:?}")
        }
        Err(_) => no_memory(out),
    }
}

fn added(
    filters: &mut Filters,
    model: &Model,
    name: Text,
    draft: FilterDraft,
) -> Option<Result<FilterId, FilterRefusal>> {
    if draft.is_known(model.parts().lower.len()) {
        Some(filters.add(model, name, draft))
    } else {
        None
    }
}

/// Removes the filter, and prints its id or the refusal.
fn tell_removed<W: Write>(
    out: &mut W,
    alloc: Global,
    filters: &mut Filters,
    line: &str,
) -> io::Result<()> {
    match name_of(alloc, line) {
        Ok(name) => {
            let removed = filters.remove(&name);
            writeln!(out, "removed {removed:?}")
        }
        Err(_) => no_memory(out),
    }
}

fn tell_place<W: Write>(out: &mut W, filters: &Filters, id: u32) -> io::Result<()> {
    let place = filters.place(FilterId::new(id));
    writeln!(out, "place {place:?}")
}

fn tell_held<W: Write>(out: &mut W, held: &[Held], model: &Model) -> io::Result<()> {
    for entry in held {
        let id = entry.id.number();
        let fits = entry.filter.fits(model);
        let filter = &entry.filter;
        writeln!(out, "held {id} {fits} {filter:?}")?;
    }
    Ok(())
}

fn tell_point<W: Write>(
    out: &mut W,
    alloc: Global,
    filters: &Filters,
    model: &Model,
    numbers: &[Option<Decimal>],
) -> io::Result<()> {
    match point_of(alloc, numbers) {
        Ok(x) => print_point(out, filters, model, &x, small_at(numbers, 0)),
        Err(_) => no_memory(out),
    }
}

/// How many times the point passes all filters, and whether it passes each.
fn print_point<W: Write>(
    out: &mut W,
    filters: &Filters,
    model: &Model,
    x: &Point,
    rounds: u32,
) -> io::Result<()> {
    let count = count_passes(filters, model, x, rounds);
    writeln!(out, "passes {count:?}")?;
    for entry in filters.held() {
        let one = passes_one(&entry.filter, model, x);
        writeln!(out, "one {one:?}")?;
    }
    Ok(())
}

fn tell_box<W: Write>(
    out: &mut W,
    alloc: Global,
    filters: &Filters,
    model: &Model,
    rounds: u32,
) -> io::Result<()> {
    match model.root(alloc) {
        Ok(root) => print_box(out, filters, model, &root, rounds),
        Err(_) => no_memory(out),
    }
}

/// How many times each filter closes the model's closed box, asked by its id, and whether it does.
fn print_box<W: Write>(
    out: &mut W,
    filters: &Filters,
    model: &Model,
    root: &BoxOf,
    rounds: u32,
) -> io::Result<()>
    requires { root.now ≡ root_of model.now }
{
    for entry in filters.held() {
        let count = count_closings(filters, entry.id, model, root, rounds);
        let one = closes_one(&entry.filter, model, root);
        writeln!(out, "closes {count:?} {one:?}")?;
    }
    Ok(())
}
