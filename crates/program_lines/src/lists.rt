ghost use Rattle.std.specs.Prelude.{◌≡◌, ◌≢◌, ◌↔◌, IsTrue, ◌+◌, ◌<◌, ◌≤◌, [], ◌∷◌, ◌++◌, length, slice_get, MatchOption, OnSome, None, OnOk, OnErr};
ghost use Rattle.std.specs.List.{All};
ghost use Rattle.flow.specs.Limits.{byte_limit, static_limit, local_limit, node_limit};
ghost use Rattle.program_lines.specs.Sums.{bytes_in, cells_in, locals_in, nodes_in};

use crate::head_line::Head;
use crate::known::KnownNames;
use cbi_base::Memory;
use flow::{Global as Variable, Text};
use std::alloc::Global;
use std::marker::Model;

/// The texts so far, and how many bytes they have together. Contracts see the list of the texts.
#[derive(Drop)]
pub struct Texts {
    items: Vec<Text>,
    bytes: usize,
}

impl Model for Texts {
    ghost use Rattle.std.specs.Prelude.{◌≡◌, ◌≤◌, List, length};
    ghost use Rattle.flow.specs.declared.program.Text.{Text};
    ghost use Rattle.flow.specs.Limits.{byte_limit};
    ghost use Rattle.program_lines.specs.Sums.{AreNumbered, bytes_in};

    ghost Value = { List Text };

    ghost view = { λ t. t.items.items };

    ghost invariant = { λ t. AreNumbered (length t.items.items) × ((t.bytes ≡ bytes_in t.items.items) × (t.bytes ≤ byte_limit)) };
}

impl Texts {
    pub fn into_vec(self) -> Vec<Text>
        ensures { result.items ≡ self }
    {
        self.items
    }

    pub fn new(alloc: Global) -> Texts
        ensures { result ≡ [] }
    {
        Texts {
            items: Vec::new(alloc),
            bytes: 0,
        }
    }

    pub fn len(&self) -> u32
        ensures { result ≡ length self.now }
    {
        self.items.len() as u32
    }

    pub fn as_slice(&self) -> &[Text]
        ensures value { result.now ≡ self.now }
        ensures few { bytes_in self.now ≤ byte_limit }
    {
        self.items.as_slice()
    }

    /// How many bytes the texts have together.
    pub fn bytes(&self) -> usize
        ensures value { result ≡ bytes_in self.now }
        ensures few { result ≤ byte_limit }
    {
        self.bytes
    }

    /// Adds a text, for which there is room. After `Memory` all is as before.
    pub fn push(&mut self, text: Text) -> Result<(), Memory>
        requires room { length self.old < 4294967295 }
        requires bytes { bytes_in self.old + length text.bytes ≤ byte_limit }
        ensures ok { OnOk result (self.new ≡ self.old ++ text ∷ []) }
        ensures err { OnErr result (self.new ≡ self.old) }
    {
        let count = text.bytes.len();
        self.items.push(text)?;
        self.bytes += count;
        Ok(())
    }
}

/// The globals so far, and how many cells they have together. Contracts see the list of the globals.
#[derive(Drop)]
pub struct Globals {
    items: Vec<Variable>,
    cells: usize,
}

impl Model for Globals {
    ghost use Rattle.std.specs.Prelude.{◌≡◌, ◌≤◌, List, length};
    ghost use Rattle.flow.specs.declared.program.Global.{Global};
    ghost use Rattle.flow.specs.Limits.{static_limit};
    ghost use Rattle.program_lines.specs.Sums.{AreNumbered, cells_in};

    ghost Value = { List Global };

    ghost view = { λ g. g.items.items };

    ghost invariant = { λ g. AreNumbered (length g.items.items) × ((g.cells ≡ cells_in g.items.items) × (g.cells ≤ static_limit)) };
}

impl Globals {
    pub fn into_vec(self) -> Vec<Variable>
        ensures { result.items ≡ self }
    {
        self.items
    }

    pub fn new(alloc: Global) -> Globals
        ensures { result ≡ [] }
    {
        Globals {
            items: Vec::new(alloc),
            cells: 0,
        }
    }

    pub fn len(&self) -> u32
        ensures { result ≡ length self.now }
    {
        self.items.len() as u32
    }

    pub fn as_slice(&self) -> &[Variable]
        ensures { result.now ≡ self.now }
    {
        self.items.as_slice()
    }

    /// How many cells the globals have together.
    pub fn cells(&self) -> usize
        ensures value { result ≡ cells_in self.now }
        ensures few { result ≤ static_limit }
    {
        self.cells
    }

    /// Adds a global, for which there is room. After `Memory` all is as before.
    pub fn push(&mut self, global: Variable) -> Result<(), Memory>
        requires room { length self.old < 4294967295 }
        requires cells { cells_in self.old + length global.cells ≤ static_limit }
        ensures ok { OnOk result (self.new ≡ self.old ++ global ∷ []) }
        ensures err { OnErr result (self.new ≡ self.old) }
    {
        let count = global.cells.len();
        self.items.push(global)?;
        self.cells += count;
        Ok(())
    }
}

/// The heads of the functions so far, the names that they have, and how many locals and nodes they have together. Contracts see the list of the heads.
#[derive(Drop)]
pub struct Heads {
    items: Vec<Head>,
    names: KnownNames,
    locals: u32,
    nodes: u32,
}

impl Model for Heads {
    ghost use Rattle.std.specs.Prelude.{◌≡◌, ◌≤◌, List, length};
    ghost use Rattle.flow.specs.Words.{Head, local_limit, node_limit};
    ghost use Rattle.program_lines.specs.Known.{AreNamesOf};
    ghost use Rattle.program_lines.specs.Sums.{AreNumbered, locals_in, nodes_in};

    ghost Value = { List Head };

    ghost view = { λ h. h.items.items };

    ghost invariant = { λ h. AreNumbered (length h.items.items)
        × (((h.locals ≡ locals_in h.items.items) × (h.locals ≤ local_limit))
        × (((h.nodes ≡ nodes_in h.items.items) × (h.nodes ≤ node_limit)) × AreNamesOf h.items.items h.names)) };
}

impl Heads {
    pub fn new(alloc: Global) -> Heads
        ensures { result ≡ [] }
    {
        Heads {
            items: Vec::new(alloc),
            names: KnownNames::new(alloc),
            locals: 0,
            nodes: 0,
        }
    }

    pub fn len(&self) -> u32
        ensures { result ≡ length self.now }
    {
        self.items.len() as u32
    }

    pub fn as_slice(&self) -> &[Head]
        ensures { result.now ≡ self.now }
    {
        self.items.as_slice()
    }

    /// The head with this number, where there is one.
    pub fn get(&self, number: usize) -> Option<&Head>
        ensures found { MatchOption result (slice_get self.now number ≡ None) (λ h. slice_get self.now number ≡ Some h.now) }
        ensures fits { OnSome result (number ≤ 4294967295) }
    {
        self.items.get(number)
    }

    /// Whether no function has this name.
    pub fn is_fresh(&self, name: &[u8]) -> bool
        ensures { IsTrue result ↔ All (λ g. g.name ≢ name.now) self.now }
    {
        !self.names.has(name)
    }

    /// How many locals the functions have together.
    pub fn locals(&self) -> u32
        ensures value { result ≡ locals_in self.now }
        ensures few { result ≤ local_limit }
    {
        self.locals
    }

    /// How many nodes the functions have together.
    pub fn nodes(&self) -> u32
        ensures value { result ≡ nodes_in self.now }
        ensures few { result ≤ node_limit }
    {
        self.nodes
    }

    /// Adds a head, for which there is room. After `Memory` all is as before.
    pub fn push(&mut self, head: Head) -> Result<(), Memory>
        requires room { length self.old < 4294967295 }
        requires locals { locals_in self.old + head.locals ≤ local_limit }
        requires nodes { nodes_in self.old + head.nodes ≤ node_limit }
        ensures ok { OnOk result (self.new ≡ self.old ++ head ∷ []) }
        ensures err { OnErr result (self.new ≡ self.old) }
    {
        let locals = head.locals;
        let nodes = head.nodes;
        let name = head.name.try_clone()?;
        self.items.push(head)?;
        let Ok(()) = self.names.add(name.bytes()) else {
            self.items.pop();
            return Err(Memory);
        };
        self.locals += locals;
        self.nodes += nodes;
        Ok(())
    }
}
