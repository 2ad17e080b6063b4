ghost use Rattle.std.specs.Prelude.{◌<◌, ◌≤◌, ◌∷◌, IfOk, IfSome, length};
ghost use Rattle.std.specs.Option.{option_to_list};
ghost use Rattle.command_base.specs.Reading.{HasRead};
ghost use Rattle.countdown_bank.specs.MadeBank.{IsMadeBank};
ghost use Rattle.command_bank.specs.MadeBank.{generator};
ghost use Rattle.expected.specs.Expected.{expect_limit};
ghost use Rattle.command_run.specs.Files.{IsReadWhere};
ghost use Rattle.command_runs.specs.Line.{AreLineBytes, bank_numbers, fellow_at};

use cbi_base::{Memory, Refusal, Seq, Store};
use cbi_options::Word;
use command_base::{Fault, read_file};
use command_run::INPUT_LIMIT;
use countdown_bank::{Bank, later_bank};
use expected::EXPECT_LIMIT;
use planned_runs::{RunInput, RunPlan};
use rand_pcg::Lcg64Xsh32;
use std::alloc::Global;

/// How many numbers each bank has.
const NUMBERS: u32 = 256;

/// The plan of a list: the run on the first line has the number `first`, and each further one the next number.
#[derive(Debug, Drop)]
pub struct ListedPlan {
    /// The names of the inputs.
    pub inputs: Seq<Word>,
    /// Those of the files that the outputs are to equal, as many, where there are such.
    pub expects: Option<Seq<Word>>,
    /// The rate at which each bank is made.
    pub rate: u32,
    /// The seed of each bank's generator; the stream is the run's number.
    pub seed: u64,
    /// The number of the first run.
    pub first: u32,
}

/// The bytes that were read for one run.
#[derive(Debug, Drop)]
struct LineBytes {
    input: Seq<u8>,
    /// What the output is to equal, where something is said.
    expect: Option<Seq<u8>>,
}

/// The bank of the run with this number.
fn bank_of(alloc: Global, rate: u32, seed: u64, number: u32) -> Result<Bank, Memory>
    requires { (1 ≤ rate) × (rate ≤ 65536) }
    ensures { IfOk result (IsMadeBank (generator seed number) rate bank_numbers) }
{
    let words = Lcg64Xsh32::new(seed, u64::from(number));
    later_bank(alloc, words, rate, NUMBERS)
}

/// The bytes of the file whose name stands at this place of the second list, where there is one.
fn read_fellow<S: Store>(
    alloc: Global,
    store: &mut S,
    expects: &Option<Seq<Word>>,
    place: usize,
) -> Result<Option<Seq<u8>>, Fault>
    requires { IfSome expects.now (λ names. place < length names) }
    ensures bytes { IfOk result (IsReadWhere (S.holds store.old) (fellow_at expects.now place) expect_limit) }
    ensures read { HasRead S.holds S.read_faults S.write_faults S.is_sound store.old store.new
        (option_to_list (fellow_at expects.now place)) (λ r. ⊥) result }
{
    match expects {
        None => Ok(None),
        Some(names) => match read_file(alloc, store, &names.as_slice()[place], EXPECT_LIMIT) {
            Ok(bytes) => Ok(Some(bytes)),
            Err(fault) => Err(fault),
        },
    }
}

/// The bytes of the input that stands at this place of the lists, and then those of its fellow, where it has one.
fn read_line<S: Store>(
    alloc: Global,
    store: &mut S,
    input: &Word,
    expects: &Option<Seq<Word>>,
    place: usize,
) -> Result<LineBytes, Fault>
    requires { IfSome expects.now (λ names. place < length names) }
    ensures bytes { IfOk result (AreLineBytes (S.holds store.old) input.now (fellow_at expects.now place)) }
    ensures read { HasRead S.holds S.read_faults S.write_faults S.is_sound store.old store.new
        (input.now ∷ option_to_list (fellow_at expects.now place)) (λ r. ⊥) result }
{
    let input = read_file(alloc, store, input, INPUT_LIMIT)?;
    let expect = match read_fellow(alloc, store, expects, place) {
        Ok(expect) => expect,
        Err(fault) => return Err(fault),
    };
    Ok(LineBytes { input, expect })
}

impl RunPlan for ListedPlan {
    ghost use Rattle.command_runs.specs.Once.{given-once, never-apart};
    ghost use Rattle.command_runs.specs.Line.{Covers, IsMadeOn, RefusesLine, names_of_line};

    ghost covers = { Covers };

    ghost names = { names_of_line };

    ghost gives = { IsMadeOn };

    ghost refuses = { RefusesLine };

    ghost once = { given-once };

    ghost apart = { never-apart };

    fn give<S: Store>(&self, alloc: Global, store: &mut S, number: u32) -> Result<RunInput, Fault> {
        let place = (number - self.first) as usize;
        let name = &self.inputs.as_slice()[place];
        let LineBytes { input, expect } = match read_line(
            alloc,
            store,
            name,
            &self.expects,
            place,
        ) {
            Ok(bytes) => bytes,
            Err(fault) => return Err(fault),
        };
        if input.len() as u64 > INPUT_LIMIT {
            let line = number - self.first + 1;
            return Err(Fault::Refused {
                refusal: Refusal::LargeInput { line },
            });
        }
        let bank = bank_of(alloc, self.rate, self.seed, number)?;
        Ok(RunInput {
            bank,
            input,
            expect,
        })
    }
}
