//! Bodies.
ghost use Rattle.std.specs.Prelude.{◌≡◌, IsTrue, IfOk};
ghost use Rattle.ir_core.specs.Listings as l;
ghost use Rattle.ir_core.specs.Listings.{made};

use super::block::Block;
use super::checks::{all_within, dummies_agree};
use f77_tree::{Duplicate, List};
use std::alloc::{AllocError, Global};
use std::marker::Model;

/// A body, which contracts see as its listing: its blocks, of which a run enters the first, and how many temporaries it has. Blocks and
/// temporaries are numbers in range, and each dummy stands in Loads and Stores either always with an index or never.
pub struct Body {
    pub blocks: List<Block>,
    pub temps: u32,
}

impl Model for Body {
    ghost use Rattle.std.specs.Prelude.{IsTrue};
    ghost use Rattle.ir_core.specs.Listings.{Listing, is_body};

    ghost Value = { Listing };

    ghost view = { λ b. record { blocks = b.blocks; temps = b.temps } };

    ghost invariant = { λ b. IsTrue (is_body (record { blocks = b.blocks; temps = b.temps })) };
}

impl Drop for Body {
    fn drop(self) {
        let Body { blocks, temps: _ } = self;
        drop(blocks)
    }
}

fn is_body(alloc: Global, blocks: &[Block], temps: u32) -> Result<bool, AllocError>
    ensures { IfOk result (λ is. is ≡ l.is_body (record { blocks = blocks.now; temps = temps })) }
{
    if blocks.is_empty() || !all_within(temps, blocks) {
        return Ok(false);
    }
    dummies_agree(alloc, blocks)
}

impl Body {
    /// The body of these blocks and so many temporaries, if they are one's.
    pub fn new(alloc: Global, blocks: List<Block>, temps: u32) -> Result<Option<Body>, AllocError>
        ensures { IfOk result (λ body. body ≡ made blocks temps) }
    {
        if is_body(alloc, blocks.as_slice(), temps)? {
            Ok(Some(Body { blocks, temps }))
        } else {
            Ok(None)
        }
    }

    /// The blocks of a body.
    pub fn blocks(&self) -> &[Block]
        ensures blocks { result.now ≡ self.now.blocks }
        ensures body { IsTrue (l.is_body self.now) }
    {
        self.blocks.as_slice()
    }

    /// The same body again.
    pub fn copy(&self, alloc: Global) -> Result<Body, AllocError>
        ensures { IfOk result (λ again. again ≡ self.now) }
    {
        Ok(Body {
            blocks: self.blocks.duplicate(alloc)?,
            temps: self.temps,
        })
    }
}
