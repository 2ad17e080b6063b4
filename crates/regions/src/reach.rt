ghost use Rattle.std.specs.Prelude.{◌≡◌, ◌↔◌, ◌<◌, ◌^◌, ℕ, IfOk, OnOk, length, true, Contains};
ghost use Rattle.regions.specs.Flags.{AreFlags, is_in};
ghost use Rattle.regions.specs.Reach.{IsReach, Reached};
ghost use Rattle.regions.specs.Weighty.{HasSite, IsWeighty};

use crate::callers::callers_of;
use cbi_base::Memory;
use flow::{Program, Site};
use std::alloc::Global;

/// The functions that were found so far: a flag for each function of the program, and those found in their order.
#[derive(Drop)]
struct Found {
    flags: Vec<bool>,
    order: Vec<u32>,
}

impl Found {
    /// None of so many functions.
    fn none(alloc: Global, count: usize) -> Result<Found, Memory>
        ensures is_reach { IfOk result (λ f. IsReach f.flags.items f.order.items) }
        ensures few { IfOk result (λ f. length f.flags.items ≡ count) }
        ensures none { IfOk result (λ f. (g : ℕ) → is_in f.flags.items g ≡ true → ⊥) }
    {
        let flags = vec![in alloc; false; count]?;
        Ok(Found {
            flags,
            order: Vec::new(alloc),
        })
    }

    /// Adds a function of the program, where it wasn't found before.
    fn add(&mut self, function: u32) -> Result<(), Memory>
        requires { IsReach self.old.flags.items self.old.order.items }
        ensures { OnOk result (Reached self.old.flags.items self.old.order.items self.new.flags.items self.new.order.items (λ g. g ≡ function)) }
    {
        if (function as usize) < self.flags.len() && !self.flags[function as usize] {
            self.order.push(function)?;
            self.flags[function as usize] = true;
        }
        Ok(())
    }

    /// Adds functions of the program.
    fn add_each(&mut self, functions: &[u32]) -> Result<(), Memory>
        requires { IsReach self.old.flags.items self.old.order.items }
        ensures { OnOk result (Reached self.old.flags.items self.old.order.items self.new.flags.items self.new.order.items (Contains functions.now)) }
    {
        for function in functions {
            self.add(*function)?;
        }
        Ok(())
    }
}

/// The functions with a site, out of so many.
fn with_sites(alloc: Global, count: usize, sites: &[Site]) -> Result<Found, Memory>
    ensures is_reach { IfOk result (λ f. IsReach f.flags.items f.order.items) }
    ensures few { IfOk result (λ f. length f.flags.items ≡ count) }
    ensures has { IfOk result (λ f. (g : ℕ) → g < count → HasSite sites.now g → is_in f.flags.items g ≡ true) }
    ensures only { IfOk result (λ f. (g : ℕ) → is_in f.flags.items g ≡ true → HasSite sites.now g) }
{
    let mut found = Found::none(alloc, count)?;
    let owners: Vec<u32> = sites.iter().map(|site| site.function).collect(alloc)?;
    found.add_each(&owners)?;
    Ok(found)
}

/// Which functions are weighty, each with its number: those from which some chain of calls leads to a site. The work grows linearly with the
/// nodes: the callers of each function are listed once, and each function that is found, from those with a site on, leads to its callers once.
pub fn weighty(alloc: Global, program: &Program) -> Result<Vec<bool>, Memory>
    ensures { IfOk result (λ flags. AreFlags (length program.now.functions) (IsWeighty program.now) flags.items) }
{
    let functions = program.functions();
    let callers = callers_of(alloc, functions)?;
    let mut found = with_sites(alloc, functions.len(), program.table().sites())?;
    let mut done = 0;
    while done < found.order.len() {
        let function = found.order[done];
        found.add_each(callers[function as usize].as_slice())?;
        done += 1;
    }
    let Found { flags, .. } = found;
    Ok(flags)
}
