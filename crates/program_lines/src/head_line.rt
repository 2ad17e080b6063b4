ghost use Rattle.std.specs.Prelude.{◌≡◌, IfOk};
ghost use Rattle.std.specs.Option.{option_map};
ghost use Rattle.cbi_base.specs.Numbers.{two_numbers};
ghost use Rattle.program_lines.specs.Rows.{head_parts, head_of_row};

use crate::rows::name;
use crate::words::has_result;
use cbi_base::{Fields, Memory, Name, read_number, two_numbers};
use std::alloc::Global;
use std::marker::Model;

/// What the line of a function says. Contracts see it as the fields of that line.
#[derive(Drop)]
pub struct Head {
    pub name: Name,
    pub value: bool,
    pub params: u32,
    pub locals: u32,
    pub nodes: u32,
}

impl Model for Head {
    ghost use Rattle.flow.specs.Spelling.{Head};

    ghost Value = { Head };

    ghost view = { λ h. record { name = h.name; value = h.value; params = h.params; locals = h.locals; nodes = h.nodes } };
}

// The name, whether there is a result, and the numbers of parameters, locals and nodes.
#[tactic(auto, unfolding(crate::specs::Rows::head_parts))]
fn head_parts<'a>(fields: &mut Fields<'a>) -> Option<(&'a [u8], (bool, (u32, (u32, u32))))>
    ensures { option_map (λ h. (h.0.now, h.1)) result ≡ head_parts fields.old }
{
    let word = fields.next()?;
    let called = fields.next()?;
    let value = fields.next()?;
    let params = fields.next()?;
    if word != b"function".as_slice() {
        return None;
    }
    let value = has_result(value)?;
    let params = read_number(params)?;
    let counts = two_numbers(fields)?;
    Some((called, (value, (params, counts))))
}

/// The head in the line of a function.
#[tactic(auto, unfolding(crate::specs::Rows::head_of_row))]
pub fn read_head(alloc: Global, fields: &mut Fields<'_>) -> Result<Option<Head>, Memory>
    ensures { IfOk result (λ head. head ≡ head_of_row fields.old) }
{
    let Some((called, (value, (params, (locals, nodes))))) = head_parts(fields) else {
        return Ok(None);
    };
    let Some(name) = name(alloc, called)? else {
        return Ok(None);
    };
    Ok(Some(Head {
        name,
        value,
        params,
        locals,
        nodes,
    }))
}
