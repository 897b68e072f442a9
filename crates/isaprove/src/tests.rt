ghost use Rattle.std.specs.Prelude.{◌≡◌, ◌≤◌, IfOk};

use crate::top::run;
use isa_io::{MemoryFiles, MemorySink};
use std::alloc::{AllocError, Global};

const TEXT: &[u8] = b"typedecl o
judgment Trueprop :: \"o => prop\"
consts A :: \"o\"
consts no :: \"o => o\"
axiomatization where a: \"A\" and nn: \"P ==> no (no P)\"
lemma t: \"no (no A)\"
apply (match nn)
apply (match a)
done
";

const OUT: &[u8] = b"goal (1 subgoal):\n 1. A\nNo subgoals!\ntheorem t: no (no A)\n";

fn words_of(alloc: Global, given: &[&str]) -> Result<Vec<String>, AllocError> {
    let mut words = Vec::new(alloc);
    for word in given {
        words.push(String::from_str(alloc, *word)?)?;
    }
    Ok(words)
}

fn numbers(alloc: Global, number: u64) -> Result<Vec<u64>, AllocError> {
    let mut numbers = Vec::new(alloc);
    numbers.push(number)?;
    Ok(numbers)
}

fn files(alloc: Global, text: &[u8], chunk: usize, fail: u64) -> Result<MemoryFiles, AllocError>
    requires { 1 ≤ chunk }
    ensures opens { IfOk result (λ files. files.seen.opens ≡ 0) }
    ensures faults { IfOk result (λ files. files.seen.faults ≡ 0) }
{
    let mut texts = Vec::new(alloc);
    texts.push((
        String::from_str(alloc, "s.thy")?,
        Vec::from_slice(alloc, TEXT)?,
    ))?;
    texts.push((
        String::from_str(alloc, "t.thy")?,
        Vec::from_slice(alloc, text)?,
    ))?;
    Ok(MemoryFiles::new(texts, chunk, numbers(alloc, fail)?))
}

/// Whether a text gives this line and status, and nothing is printed.
fn rejects(alloc: Global, text: &[u8], told: &[u8], status: u8) -> Result<bool, AllocError> {
    let words = words_of(alloc, &["t.thy"])?;
    let mut files = files(alloc, text, 1000, 0)?;
    let mut out = MemorySink::new(alloc, 1000, 1000, Vec::new(alloc))?;
    let mut err = MemorySink::new(alloc, 1000, 1000, Vec::new(alloc))?;
    let answer = run(alloc, words.as_slice(), &mut files, &mut out, &mut err);
    Ok(answer == status && err.written() == told && out.written().is_empty())
}

/// A read that fails gives the file's line, whatever its number.
#[test]
fn answers_read_faults(rt: HostRuntime) -> Result<(), AllocError> {
    let alloc = rt.alloc();
    let words = words_of(alloc, &["t.thy"])?;
    // The file takes an open, a read of 100 bytes at a time, and a read at its end.
    for fail in 1..7u64 {
        let mut files = files(alloc, TEXT, 100, fail)?;
        let mut out = MemorySink::new(alloc, 1000, 1000, Vec::new(alloc))?;
        let mut err = MemorySink::new(alloc, 1000, 1000, Vec::new(alloc))?;
        let status = run(alloc, words.as_slice(), &mut files, &mut out, &mut err);
        let fails = fail <= 4;
        assert_eq!(rt; status, if fails { 4 } else { 0 }, "at {fail}");
        assert!(rt; out.written() == if fails { b"".as_slice() } else { OUT });
        assert_eq!(rt;
            err.written() == b"t.thy: cannot be read\n".as_slice(),
            fails
        );
    }
    Ok(())
}

/// A write that fails leaves a prefix.
#[test]
fn answers_write_faults(rt: HostRuntime) -> Result<(), AllocError> {
    let alloc = rt.alloc();
    let words = words_of(alloc, &["t.thy"])?;
    for fail in 1..10u64 {
        let mut files = files(alloc, TEXT, 1000, 0)?;
        let mut out = MemorySink::new(alloc, 1000, 12, numbers(alloc, fail)?)?;
        let mut err = MemorySink::new(alloc, 1000, 1000, Vec::new(alloc))?;
        let status = run(alloc, words.as_slice(), &mut files, &mut out, &mut err);
        // The pieces of 24, 13 and 23 bytes take two writes each.
        assert_eq!(rt; status, if fail <= 6 { 5 } else { 0 }, "at {fail}");
        assert!(rt; OUT.starts_with(out.written()) && err.written().is_empty());
    }
    Ok(())
}

/// Texts that are not accepted before a lemma is open, each with the line that is told. The status is 3.
#[test]
fn rejects_texts(rt: HostRuntime) -> Result<(), AllocError> {
    let alloc = rt.alloc();
    for (text, told) in [
        (
            b"\xff\x00".as_slice(),
            b"t.thy:1: byte not allowed\n".as_slice(),
        ),
        (b"(* (* *)\n", b"t.thy:1: comment not closed\n"),
        (b"typedecl o typedecl \"o\n", b"t.thy:1: text not closed\n"),
        (
            b"declare [[step_budget = 0]]",
            b"t.thy:1: number out of range\n",
        ),
        (b"declare [[step_budget = 9]]", b"t.thy:1: not built yet\n"),
        (b"typedecl\n", b"t.thy:1: expected name\n"),
        (b"foo", b"t.thy:1: unknown command foo\n"),
        (b"\nconsts c :: \"q\"\n", b"t.thy:2: unknown type q\n"),
        (
            b"typedecl o\n \ntypedecl o\n",
            b"t.thy:3: duplicate type o\n",
        ),
        (
            b"typedecl o\nconsts c :: \"(o, o) o\"\n",
            b"t.thy:2: wrong number of arguments of o\n",
        ),
        (b"lemma t: \"A\"\n", b"t.thy:1: no judgment declared\n"),
        (b"\n\ndone\n", b"t.thy:3: no proof is open\n"),
    ] {
        assert!(rt; rejects(alloc, text, told, 3)?, "{told:?}");
    }
    Ok(())
}

/// Commands that are not accepted behind a judgment and an open lemma, each with what is told and the status.
#[test]
fn rejects_proofs(rt: HostRuntime) -> Result<(), AllocError> {
    let alloc = rt.alloc();
    let start = b"typedecl o\njudgment J :: \"o => prop\"\nlemma \"x\"\n";
    for (text, told, status) in [
        (
            b"\n".as_slice(),
            b"t.thy:3: proof not closed\n".as_slice(),
            3,
        ),
        (b"typedecl i\n", b"t.thy:4: proof is open\n", 3),
        (b"done\n", b"t.thy:4: no result\n", 1),
        (b"back\n", b"t.thy:4: no result\n", 1),
        (b"apply (match a)\n", b"t.thy:4: unknown fact a\n", 3),
        (b"apply simp\n", b"t.thy:4: not built yet\n", 3),
        (b"oops\nby simp", b"t.thy:5: no proof is open\n", 3),
        (b"oops lemma \"?x\"", b"t.thy:4: unknown ?x in a lemma\n", 3),
        (b"oops lemma \"x x\"", b"t.thy:4: types do not agree\n", 3),
        (b"oops lemma \"!!y. x\"", b"t.thy:4: not built yet\n", 3),
    ] {
        let mut whole = Vec::from_slice(alloc, start)?;
        whole.extend_from_slice(text)?;
        assert!(rt; rejects(alloc, whole.as_slice(), told, status)?, "{told:?}");
    }
    Ok(())
}

/// An attribute without its form is refused where the lemma is closed, in the line of the lemma, and no theorem is printed.
#[test]
fn rejects_attributes(rt: HostRuntime) -> Result<(), AllocError> {
    let alloc = rt.alloc();
    let mut text = Vec::from_slice(alloc, TEXT)?;
    text.extend_from_slice(b"lemma u [logic sym]: A\napply (match a)\ndone")?;
    let words = words_of(alloc, &["t.thy"])?;
    let mut files = files(alloc, text.as_slice(), 1000, 0)?;
    let mut out = MemorySink::new(alloc, 1000, 1000, Vec::new(alloc))?;
    let mut err = MemorySink::new(alloc, 1000, 1000, Vec::new(alloc))?;
    let status = run(alloc, words.as_slice(), &mut files, &mut out, &mut err);
    assert_eq!(rt; status, 3);
    assert!(rt; err.written() == b"t.thy:10: wrong form for sym\n".as_slice());
    assert!(rt;
        out.written()
            .ends_with(b"theorem t: no (no A)\nNo subgoals!\n")
    );
    Ok(())
}

/// After `-k` the run goes on behind a proof that fails, into the next file.
#[test]
fn keeps_on(rt: HostRuntime) -> Result<(), AllocError> {
    let alloc = rt.alloc();
    let words = words_of(alloc, &["-k", "s.thy", "t.thy"])?;
    let text =
        b"lemma u: A\ndone\napply (match a)\nlemma v: \"no (no A)\"\napply (match a)\ndone\nlemma w: A apply (match nn a) done";
    let mut files = files(alloc, text, 1000, 0)?;
    let mut out = MemorySink::new(alloc, 1000, 1000, Vec::new(alloc))?;
    let mut err = MemorySink::new(alloc, 1000, 1000, Vec::new(alloc))?;
    let status = run(alloc, words.as_slice(), &mut files, &mut out, &mut err);
    assert_eq!(rt; status, 1);
    assert!(rt; err.written() == b"t.thy:2: no result\nt.thy:5: no result\n".as_slice());
    assert!(rt; out.written().ends_with(b"No subgoals!\ntheorem w: A\n"));
    Ok(())
}

/// Words without a reading, and a name that no file has.
#[test]
fn refuses_words(rt: HostRuntime) -> Result<(), AllocError> {
    let alloc = rt.alloc();
    for (given, status) in [
        ([].as_slice(), 64),
        (["-"].as_slice(), 64),
        (["-k"].as_slice(), 64),
        (["--generate"].as_slice(), 64),
        (["s.thy", "-k"].as_slice(), 64),
        (["-k", "-k"].as_slice(), 64),
        (["none.thy"].as_slice(), 4),
        (["s.thy", "none.thy"].as_slice(), 4),
        (["t.thy"].as_slice(), 0),
        (["-k", "t.thy"].as_slice(), 0),
        (["s.thy", "t.thy"].as_slice(), 3),
    ] {
        let words = words_of(alloc, given)?;
        let mut files = files(alloc, TEXT, 1000, 0)?;
        let mut out = MemorySink::new(alloc, 1000, 1000, Vec::new(alloc))?;
        let mut err = MemorySink::new(alloc, 1000, 1000, Vec::new(alloc))?;
        assert_eq!(rt;
            run(alloc, words.as_slice(), &mut files, &mut out, &mut err),
            status
        );
    }
    Ok(())
}
