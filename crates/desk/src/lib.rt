// What the programs share: terms from the command line, the lines of the input, and how a program ends.
#![tactic(auto)]

ghost use Rattle.std.specs.Prelude.{◌≡◌, ℕ, List, map, take, string_bytes, IfOk, IfSome, OnOk, MatchOption, MatchResult};
ghost use Rattle.std.specs.Vec.Iter.{into_iter_items};
ghost use Rattle.std.specs.Process.{exit_status};
ghost use Rattle.std.specs.Io.KnownBytes.{IsAtEnd};
ghost use Rattle.evening.specs.declared.terms.Terms.{Terms};
ghost use Rattle.desk.specs.Words.{GivesTerms};

use anyhow::anyhow;
use arrayvec::ArrayVec;
use evening::{Terms, number_of};
use std::alloc::Global;
use std::env;
use std::fmt::Display;
use std::io::BufRead;
use std::process::ExitCode;
use std::rt::Env;

const USAGE: &str = "usage: rack [CAP MEMORY ALLOWANCE FLOOR]";

// The terms that the words give.
#[tactic(auto, using(crate::proofs::Counts::no_terms))]
pub fn terms_of(words: &[String]) -> Option<Terms>
    ensures { MatchOption result ((terms : Terms) → GivesTerms (map string_bytes words.now) terms → ⊥) (GivesTerms (map string_bytes words.now)) }
{
    match words {
        [] => Some(Terms::from([100, 4, 80, 20])),
        [cap, memory, allowance, floor] => Some(Terms::from([
            number_of(cap.as_bytes()).ok()?,
            number_of(memory.as_bytes()).ok()?,
            number_of(allowance.as_bytes()).ok()?,
            number_of(floor.as_bytes()).ok()?,
        ])),
        _ => None,
    }
}

// The first words, five at most.
fn first_words(heap: Global, words: env::Args) -> ArrayVec<String, 5, Global>
    ensures { result.items ≡ take 5 (into_iter_items words) }
{
    let mut first = ArrayVec::new_in(heap);
    for word in words.take(5) {
        first.push(word);
    }
    first
}

// The terms that all the words give. Five are too many already, and no more are kept, in no memory but the call's own: so
// none can be wanting, however many words there are.
#[tactic(auto, using(crate::proofs::Firsts::five_give, crate::proofs::Firsts::all_give))]
fn terms_of_all(heap: Global, words: env::Args) -> Option<Terms>
    ensures { MatchOption result ((terms : Terms) → GivesTerms (map string_bytes (into_iter_items words)) terms → ⊥) (GivesTerms (map string_bytes (into_iter_items words))) }
{
    terms_of(&first_words(heap, words))
}

// The terms that the command line gives: those of some words, whatever its words may be.
pub fn read_terms(rt: &(impl Env + AllocGlobal)) -> anyhow::Result<Terms>
    ensures { IfOk result (λ terms. (words : List (List ℕ)) × GivesTerms words terms) }
{
    let mut words = env::args(rt)?;
    let _program = words.next();
    terms_of_all(rt.alloc(), words).ok_or_else(|| anyhow!("{USAGE}"))
}

// Hands each line of the input to `answer`, with its number from 1, and prints what is answered. `Ok` says that nothing of the
// input is left, where it is known what there was; of standard input it is not.
pub fn answer_lines<I: BufRead, A: Display + Drop, F: FnMut(u64, &[u8]) -> anyhow::Result<A>>(
    rt: &(impl Print + AllocGlobal),
    input: &mut I,
    mut answer: F,
) -> anyhow::Result<()>
    requires { F.IsAlwaysCallable answer }
    ensures { OnOk result (IfSome (I.remaining input.old) (λ _. IsAtEnd (I.remaining input.new))) }
{
    let mut line = Vec::new(rt.alloc());
    // Nothing says that an input ends, so the lines are counted; `lines` would drop the line feed, which a level needs.
    for count in 1..u64::MAX {
        line.clear();
        if input.read_until(b'\n', &mut line)? == 0 {
            return Ok(());
        }
        rt.println(answer(count, &line)?)?;
    }
    Err(anyhow!("more lines than can be counted"))
}

// The status that a program ends with; an error is told on the way.
pub fn exit_code(rt: &impl Eprint, ended: anyhow::Result<()>) -> ExitCode
    ensures { MatchResult ended (λ _. exit_status result ≡ 0) (λ _. exit_status result ≡ 1) }
{
    // A `match`, since an error is told on the way.
    match ended {
        Ok(()) => ExitCode::SUCCESS,
        Err(error) => {
            // Where not even this can be told, the status still tells.
            let _told = eprintln!(rt; "rack: {error}");
            ExitCode::FAILURE
        }
    }
}
