//! Laws of texts that are written to a sink: each is the contract of a function that does nothing.
ghost use Rattle.std.specs.Prelude.{◌≡◌, ◌++◌, [], Bool, List, ℕ, Result, Ok, Err};
ghost use Rattle.sp_base.specs.declared.sinks.SinkEnd.{SinkEnd as End};
ghost use Rattle.sp_base.specs.Writing.{SinkState, Written, WrittenSoFar};

/// A law: doing nothing writes nothing; two texts, one written behind the other, are one; and where the first of two
/// texts fails, so do both as one.
pub fn texts_join()
    ensures nothing { (k : Bool) (s : SinkState) (text : List ℕ) → text ≡ [] → Written k (Ok tt) s s text }
    ensures both { (k : Bool) (a b c : SinkState) (q r : Result (Unit {0}) End) (first second text : List ℕ)
        → q ≡ Ok tt → Written k q a b first → Written k r b c second → text ≡ first ++ second → Written k r a c text }
    ensures fails { (k : Bool) (a b : SinkState) (end : End) (q : Result (Unit {0}) End) (first second text : List ℕ)
        → q ≡ Err end → Written k q a b first → text ≡ first ++ second → Written k (Err end) a b text }
{}

/// A law: a text can be written piece by piece. At first all of it is left; each piece takes its front away; where a
/// piece fails, the text does; and once nothing is left, it is written.
pub fn texts_grow()
    ensures begins { (k : Bool) (s : SinkState) (text left : List ℕ) → text ≡ left → WrittenSoFar k s s text left }
    ensures goes_on { (k : Bool) (a b c : SinkState) (q : Result (Unit {0}) End) (text rest piece left : List ℕ)
        → WrittenSoFar k a b text rest → rest ≡ piece ++ left → q ≡ Ok tt → Written k q b c piece → WrittenSoFar k a c text left }
    ensures fails { (k : Bool) (a b c : SinkState) (end : End) (q : Result (Unit {0}) End) (text rest piece left : List ℕ)
        → WrittenSoFar k a b text rest → rest ≡ piece ++ left → q ≡ Err end → Written k q b c piece → Written k (Err end) a c text }
    ensures ends { (k : Bool) (a b : SinkState) (text left : List ℕ) → WrittenSoFar k a b text left → left ≡ [] → Written k (Ok tt) a b text }
{}
