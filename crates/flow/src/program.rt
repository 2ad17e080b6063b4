ghost use Rattle.std.specs.Prelude.{◌≡◌, ◌↔◌, ◌<◌, ◌^◌, length, map, IfOk, IsSome, IfSome, IsTrue};
ghost use Rattle.std.specs.List.{All};
ghost use Rattle.flow.specs.Program.{AreFew, AreSites, AreTexts, IsProgram, MayHold, names_of, parts_of, table_of};
ghost use Rattle.flow.specs.Sites.{IsSite};

use crate::functions::{are_distinct, are_few, functions_fit, has_main};
use crate::node::Node;
use crate::scope::Names;
use crate::site::{SITE_LIMIT, Site, SiteTable, site_fits};
use crate::texts::{are_globals, are_texts, conversions};
use cbi_base::{Kind, Memory, Name, Seq};
use std::alloc::Global as Heap;
use std::marker::Model;

/// A text of a program: a string, or a format.
#[derive(Debug, Drop)]
pub struct Text {
    pub bytes: Seq<u8>,
}

/// What a cell of a global holds at the start: a number, null, or the place of a text's first byte.
#[derive(Clone, Copy, Debug, PartialEq, Eq)]
pub enum Cell {
    Number { kind: Kind, value: i64 },
    Null,
    Text { index: u32 },
}

/// A global variable.
#[derive(Debug, Drop)]
pub struct Global {
    pub cells: Seq<Cell>,
}

/// A function: whether it has a result, how many of its locals are parameters, the sizes of its locals in cells, and its nodes,
/// numbered from 0, where it is entered.
#[derive(Debug, Drop)]
pub struct Function {
    pub name: Name,
    pub value: bool,
    pub params: u32,
    pub locals: Seq<u32>,
    pub nodes: Seq<Node>,
}

/// The parts of a program, without its conditions: its texts, its globals, its functions, the number of the one that is run, and its sites.
#[derive(Debug, Drop)]
pub struct ProgramParts {
    pub texts: Seq<Text>,
    pub globals: Seq<Global>,
    pub functions: Seq<Function>,
    pub main: u32,
    pub sites: Seq<Site>,
}

/// What the nodes of any function of these parts may name.
fn names_of(alloc: Heap, parts: &ProgramParts) -> Result<Names, Memory>
    requires texts { AreTexts parts.now.texts }
    requires globals { length parts.now.globals < 2 ^ 32 }
    requires functions { length parts.now.functions < 2 ^ 32 }
    ensures { IfOk result (λ names. names ≡ names_of parts.now) }
{
    let conversions = conversions(alloc, parts.texts.as_slice())?;
    let owners = parts
        .sites
        .as_slice()
        .iter()
        .map(|site| site.function)
        .collect(alloc)?;
    Ok(Names {
        conversions,
        globals: parts.globals.len() as u32,
        functions: parts.functions.len() as u32,
        owners: Seq::from_vec(owners),
    })
}

/// Whether a site may stand in its function, which is one of these.
fn is_site(functions: &[Function], globals: u32, site: &Site) -> bool
    requires { AreFew functions.now }
    ensures { IsTrue result ↔ IsSite (map (λ f. length f.locals) functions.now) globals site.now }
{
    match functions.get(site.function as usize) {
        None => false,
        Some(function) => site_fits(function.locals.len() as u32, globals, site),
    }
}

fn each_is_site(functions: &[Function], globals: u32, sites: &[Site]) -> bool
    requires { AreFew functions.now }
    ensures { IsTrue result ↔ All (IsSite (map (λ f. length f.locals) functions.now) globals) sites.now }
{
    sites.iter().all(|site| is_site(functions, globals, site))
}

/// Whether the sites keep the conditions on a program's sites.
fn are_sites(functions: &[Function], globals: u32, sites: &[Site]) -> bool
    requires { AreFew functions.now }
    ensures { IsTrue result ↔ AreSites (map (λ f. length f.locals) functions.now) globals sites.now }
{
    sites.len() <= SITE_LIMIT && each_is_site(functions, globals, sites)
}

/// Whether the texts, the globals, the number of functions, the main function and the sites are a program's.
fn may_hold(parts: &ProgramParts) -> bool
    ensures { IsTrue result ↔ MayHold parts.now }
{
    let texts = parts.texts.as_slice();
    let globals = parts.globals.as_slice();
    let functions = parts.functions.as_slice();
    if !are_texts(texts) || !are_globals(texts.len() as u32, globals) {
        return false;
    }
    if !are_few(functions) || !has_main(functions, parts.main) {
        return false;
    }
    are_sites(functions, globals.len() as u32, parts.sites.as_slice())
}

/// Whether the parts keep the conditions on programs.
fn is_program(alloc: Heap, parts: &ProgramParts) -> Result<bool, Memory>
    ensures { IfOk result (λ is. IsTrue is ↔ IsProgram parts.now) }
{
    if !may_hold(parts) {
        return Ok(false);
    }
    let functions = parts.functions.as_slice();
    if !are_distinct(alloc, functions)? {
        return Ok(false);
    }
    let names = names_of(alloc, parts)?;
    Ok(functions_fit(&names, functions))
}

/// Copies of the functions' names.
fn names_of_functions(alloc: Heap, functions: &[Function]) -> Result<Seq<Name>, Memory>
    ensures { IfOk result (λ names. names ≡ map (λ f. f.name) functions.now) }
{
    let mut names = Vec::with_capacity(alloc, functions.len())?;
    for function in functions {
        names.push(function.name.try_clone()?)?;
    }
    Ok(Seq::from_vec(names))
}

/// A program. Contracts see it as its parts, which keep the conditions on programs.
#[derive(Debug, Drop)]
pub struct Program {
    texts: Seq<Text>,
    globals: Seq<Global>,
    functions: Seq<Function>,
    main: u32,
    table: SiteTable,
}

impl Model for Program {
    ghost use Rattle.flow.specs.declared.program.ProgramParts.{ProgramParts};
    ghost use Rattle.flow.specs.Program.{IsProgramKept, parts_of};

    ghost Value = { ProgramParts };

    ghost view = { λ p. parts_of p.texts p.globals p.functions p.main p.table.sites };

    ghost invariant = { λ p. IsProgramKept (parts_of p.texts p.globals p.functions p.main p.table.sites) p.table };
}

impl Program {
    /// The program with these parts.
    pub fn of(alloc: Heap, parts: ProgramParts) -> Result<Program, Memory>
        requires { IsProgram parts }
        ensures { IfOk result (λ p. p ≡ parts) }
    {
        let names = names_of_functions(alloc, parts.functions.as_slice())?;
        let ProgramParts {
            texts,
            globals,
            functions,
            main,
            sites,
        } = parts;
        Ok(Program {
            texts,
            globals,
            functions,
            main,
            table: SiteTable::of(sites, names),
        })
    }

    /// The program of these texts, globals, functions and sites, which enters the function with the number `main`; None exactly where a
    /// condition on programs fails.
    pub fn new(
        alloc: Heap,
        texts: Vec<Text>,
        globals: Vec<Global>,
        functions: Vec<Function>,
        main: u32,
        sites: Vec<Site>,
    ) -> Result<Option<Program>, Memory>
        ensures found { IfOk result (λ p. IsSome p ↔ IsProgram (parts_of texts.items globals.items functions.items main sites.items)) }
        ensures value { IfOk result (λ p. IfSome p (λ q. q ≡ parts_of texts.items globals.items functions.items main sites.items)) }
    {
        let parts = ProgramParts {
            texts: Seq::from_vec(texts),
            globals: Seq::from_vec(globals),
            functions: Seq::from_vec(functions),
            main,
            sites: Seq::from_vec(sites),
        };
        if !is_program(alloc, &parts)? {
            return Ok(None);
        }
        let program = Program::of(alloc, parts)?;
        Ok(Some(program))
    }

    /// Its texts.
    pub fn texts(&self) -> &[Text]
        ensures value { result.now ≡ self.now.texts }
        ensures is_program { IsProgram self.now }
    {
        self.texts.as_slice()
    }

    /// Its globals.
    pub fn globals(&self) -> &[Global]
        ensures value { result.now ≡ self.now.globals }
        ensures is_program { IsProgram self.now }
    {
        self.globals.as_slice()
    }

    /// Its functions.
    pub fn functions(&self) -> &[Function]
        ensures value { result.now ≡ self.now.functions }
        ensures is_program { IsProgram self.now }
    {
        self.functions.as_slice()
    }

    /// The number of the function that a run enters.
    pub fn main(&self) -> u32
        ensures value { result ≡ self.now.main }
        ensures is_program { IsProgram self.now }
    {
        self.main
    }

    /// Its site table, with copies of the functions' names.
    pub fn table(&self) -> &SiteTable
        ensures value { result.now ≡ table_of self.now }
        ensures is_program { IsProgram self.now }
    {
        &self.table
    }

    /// Its parts.
    pub fn into_parts(self) -> ProgramParts
        ensures value { result ≡ self }
        ensures is_program { IsProgram self }
    {
        let Program {
            texts,
            globals,
            functions,
            main,
            table,
        } = self;
        ProgramParts {
            texts,
            globals,
            functions,
            main,
            sites: table.into_sites(),
        }
    }
}
