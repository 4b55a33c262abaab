//! What the clauses leave open: that there is memory, and that the text is what its readers expect.
//!
//! The expected texts are worked out by hand.
ghost use Rattle.std.specs.Prelude.{◌≤◌};

use crate::run;
use itoa::Buffer;
use sp_base::{MemShelf, MemSink, MemSource, Status, Text, WordList};
use std::alloc::{AllocError, Global};
use std::test::Fail;

fn text(alloc: Global, bytes: &[u8]) -> Result<Text, AllocError> {
    Ok(Text::from_vec(Vec::from_slice(alloc, bytes)?))
}

fn word_list(alloc: Global, given: &[&[u8]]) -> Result<WordList, AllocError> {
    let mut words = WordList::new(alloc);
    for word in given {
        words.push(text(alloc, word)?)?;
    }
    Ok(words)
}

/// A shelf with the one file of this name.
fn one_file(
    alloc: Global,
    name: &[u8],
    bytes: &[u8],
    failing: &[u64],
) -> Result<MemShelf, AllocError> {
    let mut files = Vec::new(alloc);
    files.push((text(alloc, name)?, Vec::from_slice(alloc, bytes)?))?;
    Ok(MemShelf::new(alloc, files, Vec::from_slice(alloc, failing)?))
}

/// The status of a run over these words, and how much it noted.
fn run_over(
    alloc: Global,
    given: &[&[u8]],
    shelf: &mut MemShelf,
    sink: &mut MemSink,
) -> Result<(Status, usize), AllocError> {
    let words = word_list(alloc, given)?;
    let mut source = MemSource::new(alloc, Vec::new(alloc), 1, Vec::new(alloc));
    let ending = run(alloc, &words, &mut source, shelf, sink);
    Ok((ending.status, ending.journal.entries.len()))
}

/// The name of a file, its bytes, what is printed, and the status.
type Printed = (&'static [u8], &'static [u8], &'static [u8], Status);

fn prints(alloc: Global, case: &Printed) -> Result<bool, AllocError> {
    let (name, file, wanted, status) = case;
    let mut shelf = one_file(alloc, name, file, &[])?;
    let mut sink = MemSink::new(alloc, 1_000, Vec::new(alloc));
    let (answer, _) = run_over(alloc, &[*name], &mut shelf, &mut sink)?;
    Ok(answer == *status && sink.bytes() == *wanted)
}

/// The first case that prints something else.
fn first_wrong(alloc: Global, cases: &[Printed]) -> Result<Option<usize>, AllocError> {
    for (at, case) in cases.iter().enumerate() {
        if !prints(alloc, case)? {
            return Ok(Some(at));
        }
    }
    Ok(None)
}

/// Files of each kind, with their lists or their refusals.
static FILES: [Printed; 35] = [
    // two binaries that exclude each other
    (
        b"m.lp",
        b"Maximize
 obj: 3 x + 2 y
Subject To
 c1: x + y <= 1
Binaries
 x y
End
",
        b"status done\noptimum 3\nsolutions 1\n3 : x 1\n",
        Status::Clean,
    ),
    // decimals and general integers
    (
        b"m.lp",
        b"Minimize
obj:
Subject To
c1: 0.1 x + 0.2 y = 0.3
Bounds
x <= 3
y <= 3
Generals
x y
End
",
        b"status done\noptimum 0\nsolutions 2\n0 : x 1 y 1\n0 : x 3\n",
        Status::Clean,
    ),
    // a decimal objective, maximised, with a constant, and a two-sided row
    (
        b"m.lp",
        b"Maximize
obj: 0.5 x - 0.25 y + 1.3
Subject To
c: -1 <= x - y <= 1.5
Bounds
-1 <= x <= 2
y <= 1
Generals
x y
End
",
        b"status done\noptimum 2.05\nsolutions 1\n2.05 : x 2 y 1\n",
        Status::Clean,
    ),
    // an MPS file with markers and a range, minimised and maximised
    (
        b"m.mps",
        b"NAME          DEMO
ROWS
 N  COST
 E  R1
COLUMNS
    M1        'MARKER'                 'INTORG'
    X         COST         1   R1           1
    Y         COST         1   R1          -1
    M2        'MARKER'                 'INTEND'
RHS
    RHS       COST         5   R1           0
RANGES
    RNG       R1          -1
ENDATA
",
        b"status done\noptimum -5\nsolutions 1\n-5 :\n",
        Status::Clean,
    ),
    (
        b"m.mps",
        b"NAME          DEMO
OBJSENSE
    MAX
ROWS
 N  COST
 E  R1
COLUMNS
    M1        'MARKER'                 'INTORG'
    X         COST         1   R1           1
    Y         COST         1   R1          -1
    M2        'MARKER'                 'INTEND'
RHS
    RHS       COST         5   R1           0
RANGES
    RNG       R1          -1
ENDATA
",
        b"status done\noptimum -3\nsolutions 1\n-3 : X 1 Y 1\n",
        Status::Clean,
    ),
    // one model as an LP file and as an MPS file, under names in capitals
    (
        b"m.LP",
        b"Minimize
obj: - x - 2 y
Subject To
r: 3 x + 4 y <= 12
Bounds
x <= 3
y <= 2
Generals
x y
End
",
        b"status done\noptimum -5\nsolutions 1\n-5 : x 1 y 2\n",
        Status::Clean,
    ),
    (
        b"dir.lp/m.Mps",
        b"ROWS
 N obj
 L r
COLUMNS
 m 'MARKER' 'INTORG'
 x obj -1 r 3
 y obj -2 r 4
 n 'MARKER' 'INTEND'
RHS
 s r 12
BOUNDS
 UP b x 3
 UP b y 2
ENDATA
",
        b"status done\noptimum -5\nsolutions 1\n-5 : x 1 y 2\n",
        Status::Clean,
    ),
    // an indicator and a set of kind 2; weights that are equal
    (
        b"m.lp",
        b"Minimize
obj: - x - y - z
Subject To
i1: x = 1 -> z <= 0
Binaries
x y z
SOS
s1: S2:: x:3 y:1 z:2
End
",
        b"status done\noptimum -2\nsolutions 1\n-2 : y 1 z 1\n",
        Status::Clean,
    ),
    (
        b"m.lp",
        b"Minimize
obj: - x - y - z
Subject To
i1: x = 1 -> z <= 0
Binaries
x y z
SOS
s1: S2:: x:3 y:2 z:2
End
",
        b"refused 14 bad sos 1\n",
        Status::SomeRefused,
    ),
    // as CPLEX writes it
    (
        b"m.lp",
        b"\\ENCODING=ISO-8859-1
\\Problem name: knap

Maximize
 obj: 5 x1 + 4 x2 + 4 x3
Subject To
 c1: 2 x1 + 3 x2 + x3 <= 5
 c2: 4 x1 + x2 + 2 x3 <= 11
 c3: 3 x1 + 4 x2 + 2 x3 <= 8
Bounds
 0 <= x1 <= 1
 0 <= x2 <= 1
 0 <= x3 <= 1
Binaries
 x1  x2  x3 
End
",
        b"status done\noptimum 9\nsolutions 2\n9 : x1 1 x3 1\n9 : x1 1 x2 1\n",
        Status::Clean,
    ),
    // bounds that rows close, and a semi-integer variable
    (
        b"m.lp",
        b"Minimize
obj: - x
Subject To
c1: x + y <= 3
Generals
x y
End
",
        b"status done\noptimum -3\nsolutions 1\n-3 : x 3\n",
        Status::Clean,
    ),
    (
        b"m.lp",
        b"Minimize
obj: x
Subject To
c1: x >= 1
Bounds
3 <= x <= 5
Generals
x
Semis
x
End
",
        b"status done\noptimum 3\nsolutions 1\n3 : x 3\n",
        Status::Clean,
    ),
    // no feasible point
    (
        b"m.lp",
        b"Maximize
 obj: 3 x + 2 y
Subject To
 c1: x + y >= 3
Binaries
 x y
End
",
        b"status done\ninfeasible\nsolutions 0\n",
        Status::Clean,
    ),
    // ties in lexicographic order, with the variables in the order in which they first come
    (
        b"m.lp",
        b"Minimize
 obj:
Binaries
 x y z
End
",
        b"status done
optimum 0
solutions 8
0 :
0 : z 1
0 : y 1
0 : y 1 z 1
0 : x 1
0 : x 1 z 1
0 : x 1 y 1
0 : x 1 y 1 z 1
",
        Status::Clean,
    ),
    // all 65,536 points are found, and one is listed
    (
        b"m.lp",
        b"Maximize
obj: a + b + c + d + e + f + g + h + i + j + k + l + m + n + o + p
Binaries
a b c d e f g h i j k l m n o p
End
",
        b"status done
optimum 16
solutions 1
16 : a 1 b 1 c 1 d 1 e 1 f 1 g 1 h 1 i 1 j 1 k 1 l 1 m 1 n 1 o 1 p 1
",
        Status::Clean,
    ),
    // a file under the name of the other format, and empty files
    (
        b"m.lp",
        b"ROWS
 N obj
COLUMNS
ENDATA
",
        b"refused 1 syntax line 1\n",
        Status::SomeRefused,
    ),
    (
        b"m.mps",
        b"Minimize
x
Binaries
x
End
",
        b"refused 10 unsupported line 1\n",
        Status::SomeRefused,
    ),
    (
        b"m.lp",
        b"",
        b"refused 1 syntax line 1\n",
        Status::SomeRefused,
    ),
    (
        b"m.mps",
        b"",
        b"refused 1 syntax line 1\n",
        Status::SomeRefused,
    ),
    // what LP files are refused for: 2, 1, 10, 8
    (
        b"m.lp",
        b"Minimize
obj: 1e30 x
Subject To
c1: x >=
",
        b"refused 2 wide numeral line 2\n",
        Status::SomeRefused,
    ),
    (
        b"m.lp",
        b"Minimize
obj: x
Subject To
c1: x >=
",
        b"refused 1 syntax line 4\n",
        Status::SomeRefused,
    ),
    (
        b"m.lp",
        b"Minimize
obj: x
Subject To
c1: x = 1 <-> x >= 1
",
        b"refused 10 unsupported line 4\n",
        Status::SomeRefused,
    ),
    (
        b"m.lp",
        b"Minimize
obj: x
Subject To
c1: x >= 1
c1: x <= 2
End
",
        b"refused 8 duplicate name line 5\n",
        Status::SomeRefused,
    ),
    // what MPS files are refused for: 8, 9, 2, 10
    (
        b"m.mps",
        b"ROWS
 N C
 E R
 E R
",
        b"refused 8 duplicate name line 4\n",
        Status::SomeRefused,
    ),
    (
        b"m.mps",
        b"NAME A
ROWS
 N COST
COLUMNS
 X R1 1
",
        b"refused 9 unknown name line 5\n",
        Status::SomeRefused,
    ),
    (
        b"m.mps",
        b"ROWS
 N C
COLUMNS
 x C 1e-31
",
        b"refused 2 wide numeral line 4\n",
        Status::SomeRefused,
    ),
    (
        b"m.mps",
        b"ROWS
 N C
COLUMNS
RHS
SOS
",
        b"refused 10 unsupported line 5\n",
        Status::SomeRefused,
    ),
    // what drafts are refused for: 3, 4, 5, 11, 6, 13
    (
        b"m.lp",
        b"Maximize
obj: x
Bounds
5 <= x <= 3
Semi-continuous
x
End
",
        b"refused 3 continuous x\n",
        Status::SomeRefused,
    ),
    (
        b"m.lp",
        b"Minimize
x
Bounds
x <= 1e30
Generals
x
End
",
        b"refused 4 open variable x\n",
        Status::SomeRefused,
    ),
    (
        b"m.lp",
        b"Minimize
x
Bounds
x <= 1000000000000001
Generals
x
End
",
        b"refused 5 wide bound x\n",
        Status::SomeRefused,
    ),
    (
        b"m.lp",
        b"Minimize
x
Bounds
x <= -1
Generals
x
End
",
        b"refused 11 negative upper x\n",
        Status::SomeRefused,
    ),
    (
        b"m.lp",
        b"Minimize
obj: x + y
Subject To
c1: 999999999999999999999999999999 x + y >= 1000000
Bounds
x <= 1000000
Generals
x
Binaries
y
End
",
        b"refused 6 wide row 1\n",
        Status::SomeRefused,
    ),
    (
        b"m.lp",
        b"Minimize
obj: y
Subject To
i1: x = 1 -> y <= 0
Bounds
x <= 2
Generals
x
Binaries
y
End
",
        b"refused 13 bad indicator 1\n",
        Status::SomeRefused,
    ),
    // the first refusal in order: a variable, the objective
    (
        b"m.lp",
        b"Minimize
obj: 999999999999999999999999999999 x + y
Subject To
c: 999999999999999999999999999999 x <= 1
Bounds
x <= 1000001
Generals
x
End
",
        b"refused 3 continuous y\n",
        Status::SomeRefused,
    ),
    (
        b"m.lp",
        b"Minimize
obj: 999999999999999999999999999999 x
Subject To
c: 999999999999999999999999999999 x <= 1
Bounds
x <= 1000001
Generals
x
End
",
        b"refused 7 wide objective\n",
        Status::SomeRefused,
    ),
];

fn files() -> &'static [Printed] {
    &FILES
}

#[test]
fn files_print_their_lists_or_refusals(rt: HostRuntime) -> Result<(), Fail> {
    let wrong = first_wrong(rt.alloc(), files())?;
    assert_eq!(rt; wrong, None);
    Ok(())
}

const USAGE: &[u8] = b"usage: solpool [--absgap D] [--relgap D] [--nodes N] [--demo N] [FILE]\n";

const OTHER: &[u8] = b"refused 41 bad argument\n";

/// The words, the calls of the shelf that fail, what is printed, the status, and the number of notes.
type Said = (
    &'static [&'static [u8]],
    &'static [u64],
    &'static [u8],
    Status,
    usize,
);

/// Words that are no reading, and files that the shelf doesn't give.
static SAYINGS: [Said; 12] = [
    (&[], &[], USAGE, Status::Usage, 0),
    (&[b"m.lp", b"m.lp"], &[], USAGE, Status::Usage, 0),
    (&[b"-x"], &[], USAGE, Status::Usage, 0),
    (&[b"--demo", b"3"], &[], USAGE, Status::Usage, 0),
    (&[b"", b""], &[1], USAGE, Status::Usage, 0),
    (
        &[b"m.lp"],
        &[2],
        b"status done\noptimum 0\nsolutions 2\n0 :\n0 : x 1\n",
        Status::Clean,
        4,
    ),
    (
        &[b"m.lp"],
        &[1],
        b"refused 52 file fault\n",
        Status::SomeRefused,
        1,
    ),
    (
        &[b"none.lp"],
        &[],
        b"refused 51 file absent\n",
        Status::SomeRefused,
        1,
    ),
    (
        &[b"NONE.MPS"],
        &[],
        b"refused 51 file absent\n",
        Status::SomeRefused,
        1,
    ),
    // a name with another ending, for which the shelf isn't asked
    (&[b"-"], &[1], OTHER, Status::SomeRefused, 0),
    (&[b"m.txt"], &[1], OTHER, Status::SomeRefused, 0),
    (&[b"m.lp.gz"], &[1], OTHER, Status::SomeRefused, 0),
];

fn sayings() -> &'static [Said] {
    &SAYINGS
}

fn says(alloc: Global, case: &Said) -> Result<bool, AllocError> {
    let (words, failing, wanted, status, notes) = case;
    let mut shelf = one_file(
        alloc,
        b"m.lp",
        b"Minimize\nobj:\nBinaries\nx\nEnd\n",
        failing,
    )?;
    let mut sink = MemSink::new(alloc, 1_000, Vec::new(alloc));
    let answer = run_over(alloc, words, &mut shelf, &mut sink)?;
    Ok(answer == (*status, *notes) && sink.bytes() == *wanted)
}

/// The first case that is answered otherwise.
fn first_other(alloc: Global, cases: &[Said]) -> Result<Option<usize>, AllocError> {
    for (at, case) in cases.iter().enumerate() {
        if !says(alloc, case)? {
            return Ok(Some(at));
        }
    }
    Ok(None)
}

#[test]
fn answers_words_and_shelves(rt: HostRuntime) -> Result<(), Fail> {
    let other = first_other(rt.alloc(), sayings())?;
    assert_eq!(rt; other, None);
    Ok(())
}

/// The words before the file's name, the file, and what is printed.
type Worded = (&'static [&'static [u8]], &'static [u8], &'static [u8]);

/// Two binaries that exclude each other.
const PAIR: &[u8] =
    b"Maximize\n obj: 3 x + 2 y\nSubject To\n c1: x + y <= 1\nBinaries\n x y\nEnd\n";

/// Gaps and limits, with lists by hand.
static LISTS: [Worded; 8] = [
    // a point that stands on the gap
    (
        &[b"--absgap", b"1"],
        PAIR,
        b"status done\noptimum 3\nsolutions 2\n3 : x 1\n2 : y 1\n",
    ),
    // the relative gap is a part of the optimum's magnitude, also where that is negative
    (
        &[b"--absgap", b"1e75", b"--relgap", b"0.1"],
        b"Minimize\nobj: x + y - 10\nBinaries\nx y\nEnd\n",
        b"status done\noptimum -10\nsolutions 3\n-10 :\n-9 : y 1\n-9 : x 1\n",
    ),
    (
        &[b"--absgap=1e75", b"--relgap=0.5"],
        b"Minimize\nx\nBinaries\nx\nEnd\n",
        b"status done\noptimum 0\nsolutions 1\n0 :\n",
    ),
    // an empty box needs one node
    (
        &[b"--nodes", b"1"],
        b"Minimize\nx\nBounds\n3 <= x <= 2\nGenerals\nx\nEnd\n",
        b"status done\ninfeasible\nsolutions 0\n",
    ),
    (
        &[b"--absgap", b"1", b"--nodes", b"1"],
        PAIR,
        b"status nodelimit\nnodes 1\n",
    ),
    // two points where four can be need seven nodes
    (
        &[b"--absgap", b"1", b"--nodes", b"7"],
        PAIR,
        b"status done\noptimum 3\nsolutions 2\n3 : x 1\n2 : y 1\n",
    ),
    // an optimum that is found late, and the lesser of two gaps
    (
        &[b"--absgap", b"3", b"--relgap", b"1"],
        b"Minimize\nobj: 3 x + y + 1\nSubject To\nc: x + y >= 1\nBinaries\nx y\nEnd\n",
        b"status done\noptimum 2\nsolutions 2\n2 : y 1\n4 : x 1\n",
    ),
    (
        &[b"--nodes", b"99"],
        b"Minimize\nobj:\nBinaries\nx1 x2 x3 x4 x5 x6 x7 x8 x9\nEnd\n",
        b"status nodelimit\nnodes 99\n",
    ),
];

/// Whether the run over these words and a file prints this.
fn prints_worded(
    alloc: Global,
    before: &[&[u8]],
    file: &[u8],
    wanted: &[u8],
) -> Result<bool, AllocError> {
    let mut shelf = one_file(alloc, b"m.lp", file, &[])?;
    let mut sink = MemSink::new(alloc, 1_000, Vec::new(alloc));
    let mut words = word_list(alloc, before)?;
    words.push(text(alloc, b"m.lp")?)?;
    let mut source = MemSource::new(alloc, Vec::new(alloc), 1, Vec::new(alloc));
    let ending = run(alloc, &words, &mut source, &mut shelf, &mut sink);
    Ok(ending.status == Status::Clean && sink.bytes() == wanted)
}

/// The first case that prints something else.
fn first_unlisted(alloc: Global) -> Result<Option<usize>, AllocError> {
    for (at, (before, file, wanted)) in LISTS.iter().enumerate() {
        if !prints_worded(alloc, before, file, wanted)? {
            return Ok(Some(at));
        }
    }
    Ok(None)
}

#[test]
fn gaps_and_limits_are_kept(rt: HostRuntime) -> Result<(), Fail> {
    let unlisted = first_unlisted(rt.alloc())?;
    assert_eq!(rt; unlisted, None);
    Ok(())
}

/// The text of the list of this file.
const SENT: &[u8] = b"status done\noptimum 3\nsolutions 1\n3 : x 1\n";

/// Whether a sink that takes so many bytes a call, and fails at this call, gets the front part of this length, and
/// the run ends with this status.
fn sends(
    alloc: Global,
    most: usize,
    call: u64,
    length: usize,
    status: Status,
) -> Result<bool, AllocError>
    requires { 1 ≤ most }
{
    let file = b"Maximize\n obj: 3 x + 2 y\nSubject To\n c1: x + y <= 1\nBinaries\n x y\nEnd\n";
    let mut shelf = one_file(alloc, b"m.lp", file, &[])?;
    let mut sink = MemSink::new(alloc, most, Vec::from_slice(alloc, &[call])?);
    let (answer, _) = run_over(alloc, &[b"m.lp"], &mut shelf, &mut sink)?;
    Ok(answer == status && sink.bytes().len() == length && SENT.starts_with(sink.bytes()))
}

/// The first of the calls that a whole text takes which leaves another front part when it fails, or the one after
/// them, which never comes.
fn first_unfit(alloc: Global, most: usize, calls: u64) -> Result<Option<u64>, AllocError>
    requires { 1 ≤ most }
{
    let mut length = 0_usize;
    for call in 1..calls {
        if !sends(alloc, most, call, length, Status::SinkFault)? {
            return Ok(Some(call));
        }
        length = length.saturating_add(most);
    }
    if sends(alloc, most, calls, SENT.len(), Status::Clean)? {
        Ok(None)
    } else {
        Ok(Some(calls))
    }
}

#[test]
fn a_failing_sink_has_a_front_part(rt: HostRuntime) -> Result<(), Fail> {
    let by_one = first_unfit(rt.alloc(), 1, 43)?;
    let by_five = first_unfit(rt.alloc(), 5, 10)?;
    assert_eq!(rt; (by_one, by_five), (None, None));
    Ok(())
}

/// Puts a piece and a number behind a text.
fn put(file: &mut Vec<u8>, piece: &[u8], number: u32) -> Result<(), AllocError> {
    let mut buffer = Buffer::new();
    file.extend_from_slice(piece)?;
    file.extend_from_slice(buffer.format(number).as_bytes())
}

/// A file of 1,000 rows over ten variables: 999 say that of two neighbours in a ring one is 0, and the last one that
/// the first variable is 0.
fn many_rows(alloc: Global) -> Result<Vec<u8>, AllocError> {
    let mut file = Vec::from_slice(alloc, b"Maximize\nobj: x0")?;
    for at in 1..10_u32 {
        put(&mut file, b" + x", at)?;
    }
    file.extend_from_slice(b"\nSubject To")?;
    for row in 0..999_u32 {
        put(&mut file, b"\nr", row)?;
        put(&mut file, b": x", row % 10)?;
        put(&mut file, b" + x", (row + 1) % 10)?;
        file.extend_from_slice(b" <= 1")?;
    }
    file.extend_from_slice(b"\nl: x0 <= 0\nBinaries\nx9 x8 x7 x6 x5 x4 x3 x2 x1 x0\nEnd\n")?;
    Ok(file)
}

#[test]
fn reads_many_rows_and_variables(rt: HostRuntime) -> Result<(), Fail> {
    let alloc = rt.alloc();
    let (rows, variables) = (many_rows(alloc)?, many_variables(alloc)?);
    let one = b"status done\noptimum 5\nsolutions 1\n5 : x1 1 x3 1 x5 1 x7 1 x9 1\n";
    let stopped = b"status nodelimit\nnodes 99\n";
    let right = (
        prints_worded(alloc, &[], rows.as_slice(), one)?,
        prints_worded(alloc, &[b"--nodes=99"], variables.as_slice(), stopped)?,
    );
    assert_eq!(rt; right, (true, true));
    Ok(())
}

/// A file of 2,000 variables, of which the last one is maximised.
fn many_variables(alloc: Global) -> Result<Vec<u8>, AllocError> {
    let mut file = Vec::from_slice(alloc, b"Maximize\nobj: x1999\nBinaries\n")?;
    for at in 0..2_000_u32 {
        put(&mut file, b" x", at)?;
    }
    file.extend_from_slice(b"\nEnd\n")?;
    Ok(file)
}

/// A file of twelve variables and nothing else, so that all 4,096 points are optimal.
const TWELVE: &[u8] = b"Minimize\nobj:\nBinaries\nx0 x1 x2 x3 x4 x5 x6 x7 x8 x9 x10 x11\nEnd\n";

/// The text of its list, which has 143,397 bytes: the points in lexicographic order are the numbers of twelve bits, the
/// first variable's bit in front.
fn twelve_list(alloc: Global) -> Result<Vec<u8>, AllocError> {
    let mut text = Vec::from_slice(alloc, b"status done\noptimum 0\nsolutions 4096\n")?;
    for point in 0..4_096_u32 {
        text.extend_from_slice(b"0 :")?;
        for at in 0..12_u32 {
            if (point >> (11 - at)) & 1 == 1 {
                put(&mut text, b" x", at)?;
                text.extend_from_slice(b" 1")?;
            }
        }
        text.extend_from_slice(b"\n")?;
    }
    Ok(text)
}

/// Whether the run over the file of twelve variables ends with this status and prints this front of the text, over a
/// sink that takes so many bytes a call and fails at this call.
fn prints_twelve(
    alloc: Global,
    text: &[u8],
    most: usize,
    failing: u64,
    wanted: (Status, usize),
) -> Result<bool, AllocError>
    requires { 1 ≤ most }
{
    let mut shelf = one_file(alloc, b"m.lp", TWELVE, &[])?;
    let mut sink = MemSink::new(alloc, most, Vec::from_slice(alloc, &[failing])?);
    let (answer, _) = run_over(alloc, &[b"m.lp"], &mut shelf, &mut sink)?;
    let printed = sink.bytes();
    Ok((answer, printed.len()) == wanted && text.starts_with(printed))
}

#[test]
fn lists_of_more_than_a_buffer_go_out(rt: HostRuntime) -> Result<(), Fail> {
    let alloc = rt.alloc();
    let text = twelve_list(alloc)?;
    let whole = (Status::Clean, 143_397);
    let good = prints_twelve(alloc, text.as_slice(), 1_000_000, 0, whole)?;
    let slow = prints_twelve(alloc, text.as_slice(), 7, 0, whole)?;
    let late = prints_twelve(
        alloc,
        text.as_slice(),
        65_536,
        3,
        (Status::SinkFault, 131_072),
    )?;
    assert_eq!(rt; (text.len(), good, slow, late), (143_397, true, true, true));
    Ok(())
}

/// Whether a file of one byte above the limit of 2^26 is refused as too long.
fn refuses_too_long(alloc: Global) -> Result<bool, AllocError> {
    let file = vec![in alloc; 0u8; 67_108_865]?;
    let mut files = Vec::new(alloc);
    files.push((text(alloc, b"m.lp")?, file))?;
    let mut shelf = MemShelf::new(alloc, files, Vec::new(alloc));
    let mut sink = MemSink::new(alloc, 1_000, Vec::new(alloc));
    let answer = run_over(alloc, &[b"m.lp"], &mut shelf, &mut sink)?;
    Ok(
        answer == (Status::SomeRefused, 1)
            && sink.bytes() == b"refused 53 file too long\n".as_slice(),
    )
}

#[test]
fn refuses_files_above_the_limit(rt: HostRuntime) -> Result<(), Fail> {
    let right = refuses_too_long(rt.alloc())?;
    assert!(rt; right);
    Ok(())
}
