//! Flows as words.

use crate::codes::code_of;
use crate::ends::end_of;
use crate::words::Words;
use lir_core::{Flow, Items, Lir, Node, Numbers, Template};
use outside::Memory;
use std::alloc::Global;

/// The flow of a line.
pub fn flow_of(alloc: Global, line: &str) -> Result<Flow, Memory> {
    flow_in(alloc, &mut Words::new(line))
}

/// The flow that comes next.
pub fn flow_in(alloc: Global, words: &mut Words) -> Result<Flow, Memory> {
    let _ = words.takes("flow");
    let values = words.or_zero();
    let args = words.or_zero();
    let counted = is_counted(words);
    let local_cells = words.number().unwrap_or(0);
    let local_bytes = words.number().unwrap_or(0);
    let mut nodes = Vec::new(alloc);
    for _ in 0..u32::MAX {
        if !words.takes("node") {
            break;
        }
        nodes.push(node(alloc, words)?)?;
    }
    Ok(Flow {
        nodes: Items::from_vec(nodes),
        values,
        args,
        counted,
        local_cells,
        local_bytes,
    })
}

fn is_counted(words: &mut Words) -> bool {
    if words.takes("body") {
        return false;
    }
    let _ = words.takes("counted");
    true
}

fn node(alloc: Global, words: &mut Words) -> Result<Node, Memory> {
    let freq = words.number().unwrap_or(0);
    let enter = words.optional();
    let _ = words.takes("params");
    let params = Numbers::from_slice(alloc, words.numbers(alloc)?.as_slice())?;
    let _ = words.takes("preds");
    let preds = Numbers::from_slice(alloc, words.numbers(alloc)?.as_slice())?;
    let lirs = Items::from_vec(operations(alloc, words)?);
    let end = end_of(alloc, words)?;
    Ok(Node {
        params,
        lirs,
        end,
        freq,
        preds,
        enter,
    })
}

fn operations(alloc: Global, words: &mut Words) -> Result<Vec<Lir>, Memory> {
    let mut lirs = Vec::new(alloc);
    for _ in 0..u32::MAX {
        let Some(template) = template(words) else {
            break;
        };
        let def = words.optional();
        let uses = Numbers::from_slice(alloc, words.numbers(alloc)?.as_slice())?;
        lirs.push(Lir {
            template,
            uses,
            def,
            call: is_call(template),
        })?;
    }
    Ok(lirs)
}

/// What an operation's first words say that it is.
fn template(words: &mut Words) -> Option<Template> {
    if words.takes("do") {
        let name = words.word();
        let number = words.number().unwrap_or(0);
        return Some(code_of(name, number));
    }
    if words.takes("op") {
        return Some(Template::Add);
    }
    if words.takes("call") {
        return Some(Template::Call(0));
    }
    if words.takes("aim") {
        return Some(Template::CallAt);
    }
    None
}

fn is_call(template: Template) -> bool {
    match template {
        Template::Call(_) | Template::CallAt | Template::Svc(_) => true,
        Template::Copy | Template::Zero | Template::Compare => true,
        _ => false,
    }
}
