//! A system of 2,000 nodes and 20,000 edges.

ghost use Rattle.std.specs.Prelude.{◌<◌};

use super::constants::{GivenNumbers, constants};
use super::graph::{Graph, Node};
use super::reachability::{Reachability, reached};
use super::shortest::{Names, shortest};
use rn_lattice::Flat;
use rn_ports::ListTally;
use std::alloc::{AllocError, Global};
use std::test::Fail;

const NODES: usize = 2000;

// An edge from each next node, so that all lead to all, and nine from anywhere.
fn sources(alloc: Global, node: usize) -> Result<Vec<usize>, AllocError>
    requires { node < NODES }
{
    let mut sources = vec![in alloc; (node + 1) % NODES; 1]?;
    let mut seed = node as u64;
    for _ in 0..9 {
        seed = seed
            .wrapping_mul(6364136223846793005)
            .wrapping_add(1442695040888963407);
        sources.push((seed >> 33) as usize % NODES)?;
    }
    Ok(sources)
}

// Names of 1 to 26 letters, all the same.
fn name(alloc: Global, node: usize) -> Result<Vec<u8>, AllocError> {
    let letter = b'A' + (node % 26) as u8;
    vec![in alloc; letter; 1 + node / 26 % 26]
}

fn graph(alloc: Global) -> Result<Graph, Fail> {
    let mut nodes = Vec::new(alloc);
    for node in 0..NODES {
        nodes.push(Node {
            name: name(alloc, node)?,
            sources: sources(alloc, node)?,
        })?;
    }
    Ok(Graph::new(nodes).ok_or("an edge from nowhere")?)
}

#[test]
fn a_start_reaches_all(rt: HostRuntime) -> Result<(), Fail> {
    let alloc = rt.alloc();
    let system = Reachability {
        graph: graph(alloc)?,
        start: 7,
    };
    let mut tally = ListTally::new(alloc)?;
    let flags = reached(alloc, &system, &mut tally)?;
    assert!(rt; flags.iter().all(|flag| flag.is_on()));
    assert!(rt; NODES < tally.count() && tally.count() <= 22000);
    Ok(())
}

#[test]
fn a_number_comes_to_all(rt: HostRuntime) -> Result<(), Fail> {
    let alloc = rt.alloc();
    let system = GivenNumbers {
        graph: graph(alloc)?,
        given: vec![in alloc; Some(7); 1]?,
    };
    let mut tally = ListTally::new(alloc)?;
    let values = constants(alloc, &system, &mut tally)?;
    assert!(rt;
        values
            .iter()
            .all(|value| matches!(value.inner, Flat::Is(7)))
    );
    assert!(rt; NODES < tally.count() && tally.count() <= 42000);
    Ok(())
}

#[test]
fn names_come_to_all(rt: HostRuntime) -> Result<(), Fail> {
    let alloc = rt.alloc();
    let system = Names {
        graph: graph(alloc)?,
    };
    let mut tally = ListTally::new(alloc)?;
    let values = shortest(alloc, &system, &mut tally)?;
    for lengths in &values {
        for letter in 1..27 {
            assert!(rt;
                lengths
                    .get(&letter)
                    .is_some_and(|length| length.inner.count() == 1)
            );
        }
    }
    assert!(rt; NODES < tally.count());
    Ok(())
}
