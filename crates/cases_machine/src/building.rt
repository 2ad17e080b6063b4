//! Programs that are built of their parts and not read.
use cases_rows::{Page, expect};
use cbi_base::{Kind, Memory, Name, Seq};
use flow::{Function, Node, Program};
use program_file::write_program;
use std::alloc::Global;

/// The nodes of a function that returns 7.
fn nodes_of(alloc: Global) -> Result<Vec<Node>, Memory> {
    let push = Node::Push {
        kind: Kind::Int,
        value: 7,
        next: 1,
    };
    Ok(vec![in alloc; push, Node::Return]?)
}

/// The function of this name, which returns 7.
fn function_of(alloc: Global, name: Name) -> Result<Function, Memory> {
    let nodes = nodes_of(alloc)?;
    Ok(Function {
        name,
        value: true,
        params: 0,
        locals: Seq::new(alloc),
        nodes: Seq::from_vec(nodes),
    })
}

/// The function `main`, alone.
fn functions_of(alloc: Global, functions: &mut Vec<Function>) -> Result<(), Memory> {
    if let Some(name) = Name::new(alloc, b"main")? {
        functions.push(function_of(alloc, name)?)?;
    }
    Ok(())
}

/// The program of this one function, which enters the function with the number `main`.
fn program_of(alloc: Global, main: u32) -> Result<Option<Program>, Memory> {
    let mut functions = Vec::new(alloc);
    functions_of(alloc, &mut functions)?;
    Program::new(
        alloc,
        Vec::new(alloc),
        Vec::new(alloc),
        functions,
        main,
        Vec::new(alloc),
    )
}

/// Adds the file of that program; nothing where there is none.
fn push_file(main: u32, file: &mut Page) {
    if let Some(Some(program)) = file.done(program_of(file.alloc(), main)) {
        if let Some(bytes) = file.done(write_program(file.alloc(), &program)) {
            file.put(bytes.as_slice());
        }
    }
}

/// Tells the file of the program that is built to enter the function with this number, where the row says another one.
pub fn tell_built(row: &str, main: &str, told: &mut Page) {
    let mut file = Page::new(told.alloc());
    push_file(main.parse::<u32>().unwrap_or(0), &mut file);
    told.heed(&file);
    expect(row, "writes", file.bytes(), told);
}
