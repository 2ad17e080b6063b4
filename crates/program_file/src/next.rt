ghost use Rattle.std.specs.Prelude.{◌≡◌, ◌≢◌, ◌<◌, ◌↔◌, codes, ℕ, List, IfOk, IsTrue};
ghost use Rattle.std.specs.List.{All};
ghost use Rattle.flow.specs.Words.{AreLocals, is_size, cell_fits, text_limit, global_limit, site_limit, Head};
ghost use Rattle.flow.specs.declared.node.Node.{Node};
ghost use Rattle.flow.specs.declared.program.Global.{Global};
ghost use Rattle.flow.specs.declared.program.Text.{Text};
ghost use Rattle.flow.specs.declared.site.Site.{Site};
ghost use Rattle.program_file.specs.Draft.{IsCount, IsFunctionCount, IsNextText, IsNextGlobal, IsNextHead, IsNextMain, IsNextSite, AreNextLocals};
ghost use Rattle.program_file.specs.Draft.{IsNextNode, IsHead};
ghost use Rattle.program_file.specs.Errors.{TakenAs, item_of};

use crate::draft::Draft;
use cbi_base::{Fields, LineError, Memory, Seq};
use flow::{
    Bounds, Cell, Global as Variable, Node, Site, Text, cell_fits, is_size, node_fits, site_fits,
};
use program_lines::{
    Head, read_count, read_global, read_head, read_locals, read_node, read_site, read_text,
};

const TEXT_LIMIT: u32 = 400_000;

const BYTE_LIMIT: usize = 2_097_152;

const GLOBAL_LIMIT: u32 = 200_000;

const STATIC_LIMIT: usize = 1_048_576;

const FUNCTION_LIMIT: u32 = 65_536;

const LOCAL_LIMIT: u32 = 200_000;

const NODE_LIMIT: u32 = 16_000_000;

const SITE_LIMIT: u32 = 65_536;

// A line without an item is a bad one.
fn item<T>(read: Result<Option<T>, Memory>) -> Result<T, LineError>
    ensures { result ≡ item_of read }
{
    match read {
        Ok(Some(item)) => Ok(item),
        Ok(None) => Err(LineError::Bad),
        Err(_) => Err(LineError::Memory),
    }
}

// The number of lines of a list.
fn list_count(line: &[u8], word: &[u8], most: u32) -> Result<u32, LineError>
    ensures ok { IfOk result (λ count. IsCount word.now most line.now count) }
    ensures only { (count : ℕ) → IsCount word.now most line.now count → TakenAs result count }
{
    let Some(count) = read_count(&mut Fields::new(line), word) else {
        return Err(LineError::Bad);
    };
    if count > most {
        return Err(LineError::Bad);
    }
    Ok(count)
}

// What a `Vec<u8>` holds are bytes; this says so of its list.
fn are_bytes(bytes: &[u8])
    ensures { All (λ b. b < 256) bytes.now }
{
    let _count = bytes.len();
}

fn fit(texts: u32, cells: &[Cell]) -> bool
    ensures { IsTrue result ↔ All (λ c. IsTrue (cell_fits texts c)) cells.now }
{
    cells.iter().all(|cell| cell_fits(texts, *cell))
}

fn are_sizes(sizes: &[u32]) -> bool
    ensures { IsTrue result ↔ All (λ size. IsTrue (is_size size)) sizes.now }
{
    sizes.iter().all(|size| is_size(*size))
}

fn are_single(sizes: &[u32]) -> bool
    ensures { IsTrue result ↔ All (λ size. size ≡ 1) sizes.now }
{
    sizes.iter().all(|size| *size == 1)
}

fn is_head(head: &Head) -> bool
    ensures { IsTrue result ↔ IsHead head.now }
{
    let _name = head.name.bytes();
    head.params <= head.locals && head.nodes > 0
}

/// Whether a function may have these locals, of which so many are parameters.
fn are_locals(params: u32, locals: &[u32]) -> bool
    ensures { IsTrue result ↔ AreLocals params locals.now }
{
    let params = params as usize;
    params <= locals.len() && are_sizes(locals) && are_single(&locals[..params])
}

impl Draft {
    pub fn next_text_count(&self, line: &[u8]) -> Result<u32, LineError>
        ensures ok { IfOk result (λ count. IsCount (codes "texts") text_limit line.now count) }
        ensures only { (count : ℕ) → IsCount (codes "texts") text_limit line.now count → TakenAs result count }
    {
        list_count(line, b"texts", TEXT_LIMIT)
    }

    pub fn next_global_count(&self, line: &[u8]) -> Result<u32, LineError>
        ensures ok { IfOk result (λ count. IsCount (codes "globals") global_limit line.now count) }
        ensures only { (count : ℕ) → IsCount (codes "globals") global_limit line.now count → TakenAs result count }
    {
        list_count(line, b"globals", GLOBAL_LIMIT)
    }

    pub fn next_site_count(&self, line: &[u8]) -> Result<u32, LineError>
        ensures ok { IfOk result (λ count. IsCount (codes "sites") site_limit line.now count) }
        ensures only { (count : ℕ) → IsCount (codes "sites") site_limit line.now count → TakenAs result count }
    {
        list_count(line, b"sites", SITE_LIMIT)
    }

    pub fn next_function_count(&self, line: &[u8]) -> Result<u32, LineError>
        ensures ok { IfOk result (λ count. IsFunctionCount line.now count) }
        ensures only { (count : ℕ) → IsFunctionCount line.now count → TakenAs result count }
    {
        let count = match list_count(line, b"functions", FUNCTION_LIMIT) {
            Ok(count) => count,
            Err(e) => return Err(e),
        };
        if count == 0 {
            return Err(LineError::Bad);
        }
        Ok(count)
    }

    pub fn next_text(&self, line: &[u8]) -> Result<Text, LineError>
        ensures ok { IfOk result (λ t. IsNextText self.now line.now t) }
        ensures only { (t : Text) → IsNextText self.now line.now t → TakenAs result t }
    {
        let bytes = match item(read_text(self.alloc, &mut Fields::new(line))) {
            Ok(bytes) => bytes,
            Err(e) => return Err(e),
        };
        are_bytes(bytes.as_slice());
        if self.texts.len() >= self.count || bytes.len() > BYTE_LIMIT - self.texts.bytes() {
            return Err(LineError::Bad);
        }
        Ok(Text { bytes })
    }

    pub fn next_global(&self, line: &[u8]) -> Result<Variable, LineError>
        ensures ok { IfOk result (λ g. IsNextGlobal self.now line.now g) }
        ensures only { (g : Global) → IsNextGlobal self.now line.now g → TakenAs result g }
    {
        let room = STATIC_LIMIT - self.globals.cells();
        let cells = match item(read_global(self.alloc, &mut Fields::new(line), room as u32)) {
            Ok(cells) => cells,
            Err(e) => return Err(e),
        };
        if self.globals.len() >= self.count || cells.is_empty() || cells.len() > room {
            return Err(LineError::Bad);
        }
        if !fit(self.texts.len(), cells.as_slice()) {
            return Err(LineError::Bad);
        }
        Ok(Variable { cells })
    }

    pub fn next_head(&self, line: &[u8]) -> Result<Head, LineError>
        ensures ok { IfOk result (λ h. IsNextHead self.now line.now h) }
        ensures only { (h : Head) → IsNextHead self.now line.now h → TakenAs result h }
    {
        let head = match item(read_head(self.alloc, &mut Fields::new(line))) {
            Ok(head) => head,
            Err(e) => return Err(e),
        };
        if self.heads.len() >= self.count {
            return Err(LineError::Bad);
        }
        if head.locals > LOCAL_LIMIT - self.heads.locals() {
            return Err(LineError::Bad);
        }
        if head.nodes > NODE_LIMIT - self.heads.nodes() {
            return Err(LineError::Bad);
        }
        if !is_head(&head) || !self.heads.is_fresh(head.name.bytes()) {
            return Err(LineError::Bad);
        }
        Ok(head)
    }

    pub fn next_main(&self, line: &[u8]) -> Result<u32, LineError>
        ensures ok { IfOk result (λ main. IsNextMain self.now line.now main) }
        ensures only { (main : ℕ) → IsNextMain self.now line.now main → TakenAs result main }
    {
        let Some(main) = read_count(&mut Fields::new(line), b"main") else {
            return Err(LineError::Bad);
        };
        let Some(head) = self.heads.as_slice().get(main as usize) else {
            return Err(LineError::Bad);
        };
        if !head.value || head.params != 0 {
            return Err(LineError::Bad);
        }
        Ok(main)
    }

    pub fn next_site(&self, line: &[u8]) -> Result<Site, LineError>
        ensures ok { IfOk result (λ s. IsNextSite self.now line.now s) }
        ensures only { (s : Site) → IsNextSite self.now line.now s → TakenAs result s }
    {
        let site = match item(read_site(self.alloc, &mut Fields::new(line))) {
            Ok(site) => site,
            Err(e) => return Err(e),
        };
        let Some(head) = self.heads.get(site.function as usize) else {
            return Err(LineError::Bad);
        };
        if self.sites.len() >= self.count as usize {
            return Err(LineError::Bad);
        }
        if !site_fits(head.locals, self.globals.len(), &site) {
            return Err(LineError::Bad);
        }
        Ok(site)
    }

    pub fn next_locals(&self, line: &[u8]) -> Result<Seq<u32>, LineError>
        ensures ok { IfOk result (λ sizes. AreNextLocals self.now line.now sizes) }
        ensures only { (sizes : List ℕ) → AreNextLocals self.now line.now sizes → TakenAs result sizes }
    {
        let Some(head) = self.heads.as_slice().get(self.functions.len()) else {
            return Err(LineError::Bad);
        };
        let sizes = match item(read_locals(self.alloc, &mut Fields::new(line), head.locals)) {
            Ok(sizes) => sizes,
            Err(e) => return Err(e),
        };
        if !are_locals(head.params, sizes.as_slice()) {
            return Err(LineError::Bad);
        }
        Ok(sizes)
    }

    pub fn next_node(&self, line: &[u8]) -> Result<Node, LineError>
        ensures ok { IfOk result (λ n. (h : Head) × IsNextNode self.now line.now h n) }
        ensures only { (h : Head) (n : Node) → IsNextNode self.now line.now h n → TakenAs result n }
    {
        let number = self.functions.len();
        let Some(head) = self.heads.get(number) else {
            return Err(LineError::Bad);
        };
        let place = self.nodes.len();
        if place >= head.nodes as usize {
            return Err(LineError::Bad);
        }
        let Some(node) = read_node(&mut Fields::new(line)) else {
            return Err(LineError::Bad);
        };
        let bounds = Bounds {
            function: number as u32,
            locals: head.locals,
            nodes: head.nodes,
        };
        if !node_fits(&self.names, bounds, place as u32, node) {
            return Err(LineError::Bad);
        }
        Ok(node)
    }
}
