ghost use Rattle.std.specs.Prelude.{◌≡◌, ℕ, List, [], decimal, IfSome, Some, IfOk, Err};
ghost use Rattle.countdown_bank.specs.Bank.{AreNumbers, IsCountdown, bank_of};
ghost use Rattle.countdown_bank.specs.BankFile.{numbers_text, bank_text, IsBadBankLine, BankReadAs, BankRefusedAt};
ghost use Rattle.countdown_bank.specs.declared.file.BankError.TheVariants as error;

use crate::bank::{Bank, GREATEST_NUMBER, MOST_NUMBERS};
use cbi_base::{LineError, LineReader, Memory, TextError, push_decimal, read_decimal, read_lines};
use std::alloc::Global;
use std::marker::Model;

/// Why bytes were not read as a bank.
#[derive(Clone, Copy, Debug, PartialEq, Eq)]
pub enum BankError {
    /// The bytes are the text of no bank. The line is 1 plus the number of whole lines in their longest good prefix.
    BadBank { line: u32 },
    Memory,
}

/// The numbers of a bank's text as far as it was read. Contracts see it as their list.
#[derive(Drop)]
struct Numbers {
    numbers: Vec<u32>,
}

impl Model for Numbers {
    ghost use Rattle.std.specs.Prelude.{ℕ, List};

    ghost Value = { List ℕ };

    ghost view = { λ n. n.numbers.items };
}

impl Numbers {
    fn new(alloc: Global) -> Numbers
        ensures { result ≡ [] }
    {
        Numbers {
            numbers: Vec::new(alloc),
        }
    }

    fn into_vec(self) -> Vec<u32>
        ensures { result.items ≡ self }
    {
        let Numbers { numbers } = self;
        numbers
    }
}

/// The number of a line, where a bank can have it.
fn number_of(line: &[u8]) -> Option<u32>
    ensures found { IfSome result (λ n. (line.now ≡ decimal n) × IsCountdown n) }
    ensures only { (n : ℕ) → line.now ≡ decimal n → IsCountdown n → result ≡ Some n }
{
    let number = read_decimal(line, u64::from(GREATEST_NUMBER))?;
    if number == 0 {
        return None;
    }
    Some(number as u32)
}

impl LineReader for Numbers {
    ghost use Rattle.countdown_bank.specs.BankFile.{NumberFollows, MayEnd};

    ghost follows = { NumberFollows };

    ghost ends = { MayEnd };

    fn take(&mut self, line: &[u8]) -> Result<(), LineError> {
        if self.numbers.len() >= MOST_NUMBERS {
            return Err(LineError::Bad);
        }
        let Some(number) = number_of(line) else {
            return Err(LineError::Bad);
        };
        let Ok(()) = self.numbers.push(number) else {
            return Err(LineError::Memory);
        };
        Ok(())
    }

    fn may_end(&self) -> bool {
        !self.numbers.is_empty()
    }
}

/// The bank whose text the bytes are, drawn from its first number on.
pub fn read_bank(alloc: Global, bytes: &[u8]) -> Result<Bank, BankError>
    // What is read has this text.
    ensures found { IfOk result (λ b. bytes.now ≡ bank_text b) }
    ensures first { IfOk result (λ b. b ≡ bank_of b.numbers) }
    // What has this text is read, unless memory runs out: so a text is refused exactly where it is that of no bank.
    ensures only { (numbers : List ℕ) → AreNumbers numbers → bytes.now ≡ numbers_text numbers → BankReadAs result (bank_of numbers) }
    // A refusal names the line at which the text goes wrong, and a text that goes wrong is refused there, unless memory runs out.
    ensures line { (line : ℕ) → result ≡ Err (error.BadBank line) → IsBadBankLine bytes.now line }
    ensures line_only { (line : ℕ) → IsBadBankLine bytes.now line → BankRefusedAt result line }
{
    let mut numbers = Numbers::new(alloc);
    match read_lines(&mut numbers, bytes) {
        Ok(()) => Ok(Bank::of(numbers.into_vec())),
        Err(TextError::Bad { line }) => Err(BankError::BadBank { line }),
        Err(TextError::Memory) => Err(BankError::Memory),
    }
}

/// The text of a bank: that of its numbers, as which it is read again.
pub fn write_bank(alloc: Global, bank: &Bank) -> Result<Vec<u8>, Memory>
    ensures text { IfOk result (λ text. text.items ≡ bank_text bank.now) }
    ensures numbers { AreNumbers bank.now.numbers }
{
    let mut text = Vec::new(alloc);
    for number in bank.numbers() {
        push_decimal(&mut text, u128::from(number))?;
        text.push(b'\n')?;
    }
    Ok(text)
}

/// A law: a text is that of the numbers of one bank at most.
pub fn one_bank()
    ensures { (a b : List ℕ) → AreNumbers a → AreNumbers b → numbers_text a ≡ numbers_text b → a ≡ b }
{}
