ghost use Rattle.std.specs.Prelude.{◌≡◌, ℕ, ◌<◌, [], All, Vec, length, IfOk, OnOk};
ghost use Rattle.std.specs.declared.alloc.Global.{Global};
ghost use Rattle.fix_solver.specs.Readers.{IsReaders};
ghost use Rattle.fix_solver.specs.Adding.{AddsReader};

use crate::System;
use std::alloc::{AllocError, Global};

/// For each node the nodes that read it, as often as they do.
pub fn readers_of<S: System>(alloc: Global, system: &S) -> Result<Vec<Vec<usize>>, AllocError>
    ensures { IfOk result (λ readers. IsReaders (λ (list : Vec ℕ Global). list.items) (S.sources system.now) (S.nodes system.now) (S.nodes system.now) readers.items) }
{
    let nodes = system.nodes();
    let mut readers = no_readers(alloc, nodes)?;
    for node in 0..nodes {
        add_reader(&mut readers, node, system.sources(node))?;
    }
    Ok(readers)
}

// An empty list for each node.
fn no_readers(alloc: Global, nodes: usize) -> Result<Vec<Vec<usize>>, AllocError>
    ensures count { IfOk result (λ lists. length lists.items ≡ nodes) }
    ensures empty { IfOk result (λ lists. All (λ list. list.items ≡ []) lists.items) }
{
    let mut lists = Vec::new(alloc);
    for node in 0..nodes {
        lists.push(Vec::new(alloc))?;
    }
    Ok(lists)
}

// Adds the node to the lists of its sources.
fn add_reader(
    readers: &mut Vec<Vec<usize>>,
    node: usize,
    sources: &[usize],
) -> Result<(), AllocError>
    requires { All (λ m. m < length readers.old.items) sources.now }
    ensures { OnOk result (AddsReader (λ (list : Vec ℕ Global). list.items) node sources.now readers.old.items readers.new.items) }
{
    for source in sources {
        readers[*source].push(node)?;
    }
    Ok(())
}
