// Belt cycle: work words from standard input; a line for each answer and the totals, or the number of a refusal.
#![tactic(auto)]

ghost use Rattle.std.specs.Prelude.{◌≤◌, length, IfOk};

use refusals::Refusal;
use std::io;
use std::io::{ErrorKind, Read};

// Two numbers, one space apart.
fn print_pair(rt: &impl Print, first: u64, second: u64) -> io::Result<()> {
    println!(rt; "{first} {second}")
}

// An answer word: kind and value.
fn print_answer(rt: &impl Print, word: u32) -> io::Result<()> {
    print_pair(
        rt,
        (word / words::VALUES) as u64,
        (word % words::VALUES) as u64,
    )
}

fn print_answers(rt: &impl Print, answers: &[u32]) -> io::Result<()> {
    for answer in answers {
        print_answer(rt, *answer)?;
    }
    Ok(())
}

fn print_refusal(rt: &impl Print, why: Refusal) -> io::Result<()> {
    let number = u32::from(why);
    println!(rt; "refused {number}")
}

// The cycle of an input, printed.
fn report(rt: &impl Print, input: &[u8]) -> io::Result<()> {
    let mut answers = [0u32; 1025];
    let mut store = [0u8; 512];
    let mut outgoing = [0u8; 8192];
    let o = belt::cycle(input, &mut answers, &mut store, &mut outgoing);
    if let Err(why) = o.batch {
        return print_refusal(rt, why);
    }
    print_answers(rt, &answers[..o.words])?;
    print!(rt; "total ")?;
    print_pair(rt, o.moves, o.references)
}

// Reads until `input` is full or the source ends; how many bytes it put at the front of `input`.
fn read_full(source: &mut impl Read, input: &mut [u8]) -> io::Result<usize>
    ensures { IfOk result (λ n. n ≤ length input.new) }
{
    let mut done = 0;
    for _ in 0..u64::MAX {
        if done == input.len() {
            break;
        }
        match source.read(&mut input[done..]) {
            Ok(0) => break,
            Ok(n) => done += n,
            Err(e) => {
                if e.kind() != ErrorKind::Interrupted {
                    return Err(e);
                }
            }
        }
    }
    Ok(done)
}

fn main(rt: HostRuntime) -> io::Result<()> {
    let mut input = [0u8; 4100];
    let got = read_full(&mut rt.reader(), &mut input)?;
    report(&rt, &input[..got])
}
