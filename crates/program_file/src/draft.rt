ghost use Rattle.std.specs.Prelude.{◌≡◌, codes, length, OnOk};
ghost use Rattle.cbi_base.specs.LineFaults.{TakenWith};
ghost use Rattle.flow.specs.Words.{text_limit, global_limit, site_limit, Head};
ghost use Rattle.program_file.specs.Draft.{TakesItem, IsCount, IsFunctionCount, IsNextText, IsNextGlobal, IsNextHead, IsNextMain, IsNextSite};
ghost use Rattle.program_file.specs.Draft.{AreNextLocals, IsNextPlaced, IsDue, with_nodes, parts_in, empty_draft, due_after, with_text_count, with_text};
ghost use Rattle.program_file.specs.Draft.{with_global_count, with_global, with_function_count, with_head, with_main, with_site_count, with_sites};
ghost use Rattle.program_file.specs.Draft.{with_site, with_locals, with_placed};
ghost use Rattle.program_file.specs.declared.draft.Due.TheVariants as due;
ghost use Rattle.program_file.specs.declared.draft.Draft.{Draft};

use crate::scope::names;
use cbi_base::{LineError, LineReader, Memory, Seq};
use flow::{Function, Names, Node, ProgramParts, Site};
use program_lines::{Globals, Heads, Texts};
use std::alloc::Global;
use std::mem;

/// The line that a program file calls for next.
#[derive(Clone, Copy, Debug, PartialEq, Eq)]
pub enum Due {
    Title,
    Texts,
    Text,
    Globals,
    Global,
    Functions,
    Head,
    Main,
    Sites,
    Site,
    Locals,
    Node,
    End,
    Nothing,
}

/// A program file as far as it was read: the line that is due, how many lines the list in progress has, and the parts of the program so far; of
/// the function in progress its locals and its nodes so far.
#[derive(Drop)]
pub struct Draft {
    pub alloc: Global,
    pub due: Due,
    pub count: u32,
    pub texts: Texts,
    pub globals: Globals,
    pub heads: Heads,
    pub main: u32,
    pub sites: Seq<Site>,
    pub names: Names,
    pub functions: Seq<Function>,
    pub locals: Seq<u32>,
    pub nodes: Seq<Node>,
}

fn due_after(lines: u32, count: u32, item: Due, past: Due) -> Due
    ensures { result ≡ due_after lines count item past }
{
    if lines == count { past } else { item }
}

impl Draft {
    /// Nothing is read yet.
    pub fn new(alloc: Global) -> Draft
        ensures { result ≡ empty_draft alloc }
    {
        Draft {
            alloc,
            due: Due::Title,
            count: 0,
            texts: Texts::new(alloc),
            globals: Globals::new(alloc),
            heads: Heads::new(alloc),
            main: 0,
            sites: Seq::new(alloc),
            names: Names {
                conversions: Seq::new(alloc),
                globals: 0,
                functions: 0,
                owners: Seq::new(alloc),
            },
            functions: Seq::new(alloc),
            locals: Seq::new(alloc),
            nodes: Seq::new(alloc),
        }
    }

    /// The parts that were read.
    pub fn finish(self) -> ProgramParts
        ensures { result ≡ parts_in self }
    {
        let Draft {
            texts,
            globals,
            functions,
            main,
            sites,
            ..
        } = self;
        ProgramParts {
            texts: Seq::from_vec(texts.into_vec()),
            globals: Seq::from_vec(globals.into_vec()),
            functions,
            main,
            sites,
        }
    }

    // A line that is always the same.
    fn expect(&mut self, line: &[u8], want: &[u8], next: Due) -> Result<(), LineError>
        ensures ok { OnOk result ((line.now ≡ want.now) × (self.new ≡ record self.old { due = next })) }
        ensures only { (after : Draft) → (line.now ≡ want.now) × (after ≡ record self.old { due = next }) → TakenWith result (self.new ≡ after) }
    {
        if line != want {
            return Err(LineError::Bad);
        }
        self.due = next;
        Ok(())
    }

    // How many texts there are.
    fn take_text_count(&mut self, line: &[u8]) -> Result<(), LineError>
        ensures ok { OnOk result (TakesItem (IsCount (codes "texts") text_limit line.now) (with_text_count self.old) self.new) }
        ensures only { (next : Draft) → TakesItem (IsCount (codes "texts") text_limit line.now) (with_text_count self.old) next
            → TakenWith result (self.new ≡ next) }
    {
        let count = match self.next_text_count(line) {
            Ok(count) => count,
            Err(e) => return Err(e),
        };
        self.due = due_after(0, count, Due::Text, Due::Globals);
        self.count = count;
        self.texts = Texts::new(self.alloc);
        Ok(())
    }

    // The next text.
    fn take_text(&mut self, line: &[u8]) -> Result<(), LineError>
        ensures ok { OnOk result (TakesItem (IsNextText self.old line.now) (with_text self.old) self.new) }
        ensures only { (next : Draft) → TakesItem (IsNextText self.old line.now) (with_text self.old) next → TakenWith result (self.new ≡ next) }
    {
        let count = self.count;
        let text = match self.next_text(line) {
            Ok(text) => text,
            Err(e) => return Err(e),
        };
        let Ok(()) = self.texts.push(text) else {
            return Err(LineError::Memory);
        };
        self.due = due_after(self.texts.len(), count, Due::Text, Due::Globals);
        Ok(())
    }

    // How many globals there are.
    fn take_global_count(&mut self, line: &[u8]) -> Result<(), LineError>
        ensures ok { OnOk result (TakesItem (IsCount (codes "globals") global_limit line.now) (with_global_count self.old) self.new) }
        ensures only { (next : Draft) → TakesItem (IsCount (codes "globals") global_limit line.now) (with_global_count self.old) next
            → TakenWith result (self.new ≡ next) }
    {
        let count = match self.next_global_count(line) {
            Ok(count) => count,
            Err(e) => return Err(e),
        };
        self.due = due_after(0, count, Due::Global, Due::Functions);
        self.count = count;
        self.globals = Globals::new(self.alloc);
        Ok(())
    }

    // The next global.
    fn take_global(&mut self, line: &[u8]) -> Result<(), LineError>
        ensures ok { OnOk result (TakesItem (IsNextGlobal self.old line.now) (with_global self.old) self.new) }
        ensures only { (next : Draft) → TakesItem (IsNextGlobal self.old line.now) (with_global self.old) next → TakenWith result (self.new ≡ next) }
    {
        let count = self.count;
        let global = match self.next_global(line) {
            Ok(global) => global,
            Err(e) => return Err(e),
        };
        let Ok(()) = self.globals.push(global) else {
            return Err(LineError::Memory);
        };
        self.due = due_after(self.globals.len(), count, Due::Global, Due::Functions);
        Ok(())
    }

    // How many functions there are.
    fn take_function_count(&mut self, line: &[u8]) -> Result<(), LineError>
        ensures ok { OnOk result (TakesItem (IsFunctionCount line.now) (with_function_count self.old) self.new) }
        ensures only { (next : Draft) → TakesItem (IsFunctionCount line.now) (with_function_count self.old) next → TakenWith result (self.new ≡ next) }
    {
        let count = match self.next_function_count(line) {
            Ok(count) => count,
            Err(e) => return Err(e),
        };
        self.due = Due::Head;
        self.count = count;
        self.heads = Heads::new(self.alloc);
        Ok(())
    }

    // The head of the next function.
    fn take_head(&mut self, line: &[u8]) -> Result<(), LineError>
        ensures ok { OnOk result (TakesItem (IsNextHead self.old line.now) (with_head self.old) self.new) }
        ensures only { (next : Draft) → TakesItem (IsNextHead self.old line.now) (with_head self.old) next → TakenWith result (self.new ≡ next) }
    {
        let count = self.count;
        let head = match self.next_head(line) {
            Ok(head) => head,
            Err(e) => return Err(e),
        };
        let Ok(()) = self.heads.push(head) else {
            return Err(LineError::Memory);
        };
        self.due = due_after(self.heads.len(), count, Due::Head, Due::Main);
        Ok(())
    }

    // The function that a run enters.
    fn take_main(&mut self, line: &[u8]) -> Result<(), LineError>
        ensures ok { OnOk result (TakesItem (IsNextMain self.old line.now) (with_main self.old) self.new) }
        ensures only { (next : Draft) → TakesItem (IsNextMain self.old line.now) (with_main self.old) next → TakenWith result (self.new ≡ next) }
    {
        let main = match self.next_main(line) {
            Ok(main) => main,
            Err(e) => return Err(e),
        };
        self.due = Due::Sites;
        self.main = main;
        Ok(())
    }

    // The sizes of the locals of the next function.
    fn take_locals(&mut self, line: &[u8]) -> Result<(), LineError>
        ensures ok { OnOk result (TakesItem (AreNextLocals self.old line.now) (with_locals self.old) self.new) }
        ensures only { (next : Draft) → TakesItem (AreNextLocals self.old line.now) (with_locals self.old) next → TakenWith result (self.new ≡ next) }
    {
        let sizes = match self.next_locals(line) {
            Ok(sizes) => sizes,
            Err(e) => return Err(e),
        };
        self.due = Due::Node;
        self.locals = sizes;
        self.nodes = Seq::new(self.alloc);
        Ok(())
    }

    // Where all sites are there, the functions' own lines are due.
    fn pass_sites(&mut self) -> Result<(), Memory>
        ensures { OnOk result (self.new ≡ with_sites self.old self.old.sites) }
    {
        if self.sites.len() != self.count as usize {
            self.due = Due::Site;
            return Ok(());
        }
        self.names = names(
            self.alloc,
            &self.texts,
            self.globals.len(),
            self.heads.len(),
            self.sites.as_slice(),
        )?;
        self.functions = Seq::new(self.alloc);
        self.due = Due::Locals;
        Ok(())
    }

    // How many sites there are.
    fn take_site_count(&mut self, line: &[u8]) -> Result<(), LineError>
        ensures ok { OnOk result (TakesItem (IsCount (codes "sites") site_limit line.now) (with_site_count self.old) self.new) }
        ensures only { (next : Draft) → TakesItem (IsCount (codes "sites") site_limit line.now) (with_site_count self.old) next
            → TakenWith result (self.new ≡ next) }
    {
        let count = match self.next_site_count(line) {
            Ok(count) => count,
            Err(e) => return Err(e),
        };
        self.count = count;
        self.sites = Seq::new(self.alloc);
        let Ok(()) = self.pass_sites() else {
            return Err(LineError::Memory);
        };
        Ok(())
    }

    // The next site.
    fn take_site(&mut self, line: &[u8]) -> Result<(), LineError>
        ensures ok { OnOk result (TakesItem (IsNextSite self.old line.now) (with_site self.old) self.new) }
        ensures only { (next : Draft) → TakesItem (IsNextSite self.old line.now) (with_site self.old) next → TakenWith result (self.new ≡ next) }
    {
        let site = match self.next_site(line) {
            Ok(site) => site,
            Err(e) => return Err(e),
        };
        let Ok(()) = self.sites.push(site) else {
            return Err(LineError::Memory);
        };
        let Ok(()) = self.pass_sites() else {
            return Err(LineError::Memory);
        };
        Ok(())
    }

    // The next node of the function in progress.
    fn take_node(&mut self, line: &[u8]) -> Result<(), LineError>
        ensures ok { OnOk result (TakesItem (IsNextPlaced self.old line.now) (with_placed self.old) self.new) }
        ensures only { (next : Draft) → TakesItem (IsNextPlaced self.old line.now) (with_placed self.old) next → TakenWith result (self.new ≡ next) }
    {
        let node = match self.next_node(line) {
            Ok(node) => node,
            Err(e) => return Err(e),
        };
        let Ok(()) = self.nodes.push(node) else {
            return Err(LineError::Memory);
        };
        let Ok(()) = self.pass_nodes() else {
            return Err(LineError::Memory);
        };
        Ok(())
    }

    // Where all nodes of the function in progress are there, it is whole.
    fn pass_nodes(&mut self) -> Result<(), Memory>
        ensures { OnOk result ((head : Head) → IsDue self.old head → self.new ≡ with_nodes self.old head self.old.nodes) }
    {
        let number = self.functions.len();
        let Some(head) = self.heads.get(number) else {
            return Ok(());
        };
        self.due = Due::Node;
        if self.nodes.len() != head.nodes as usize {
            return Ok(());
        }
        let name = head.name.try_clone()?;
        let function = Function {
            name,
            value: head.value,
            params: head.params,
            locals: mem::replace(&mut self.locals, Seq::new(self.alloc)),
            nodes: mem::replace(&mut self.nodes, Seq::new(self.alloc)),
        };
        self.functions.push(function)?;
        self.due = self.due_after_function();
        Ok(())
    }

    fn due_after_function(&self) -> Due
        ensures { result ≡ due_after (length self.now.functions) (length self.now.heads) due.Locals due.End }
    {
        if self.functions.len() == self.heads.len() as usize {
            Due::End
        } else {
            Due::Locals
        }
    }
}

impl LineReader for Draft {
    ghost use Rattle.program_file.specs.Draft.{IsWhole, ProgramLineFollows};

    ghost follows = { ProgramLineFollows };

    ghost ends = { IsWhole };

    fn take(&mut self, line: &[u8]) -> Result<(), LineError> {
        match self.due {
            Due::Title => self.expect(line, b"cbi-program 1", Due::Texts),
            Due::Texts => self.take_text_count(line),
            Due::Text => self.take_text(line),
            Due::Globals => self.take_global_count(line),
            Due::Global => self.take_global(line),
            Due::Functions => self.take_function_count(line),
            Due::Head => self.take_head(line),
            Due::Main => self.take_main(line),
            Due::Sites => self.take_site_count(line),
            Due::Site => self.take_site(line),
            Due::Locals => self.take_locals(line),
            Due::Node => self.take_node(line),
            Due::End => self.expect(line, b"end", Due::Nothing),
            Due::Nothing => Err(LineError::Bad),
        }
    }

    fn may_end(&self) -> bool {
        self.due == Due::Nothing
    }
}
