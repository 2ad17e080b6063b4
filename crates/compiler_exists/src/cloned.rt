//! Laws of the definitions, each on a function of its own without a body.
ghost use Rattle.flow.specs.declared.program.ProgramParts.{ProgramParts};
ghost use Rattle.flow.specs.Program.{IsProgram};
ghost use Rattle.clone_paths.specs.Cloned.{MayClone};
ghost use Rattle.compiler_exists.specs.Cloned.{HasClone};

/// Each program that may be cloned has a cloned form, which is a program with at most eight nodes for each node.
pub fn each_program_has_a_cloned_form()
    ensures { (p : ProgramParts) → IsProgram p → MayClone p → HasClone p }
{}
