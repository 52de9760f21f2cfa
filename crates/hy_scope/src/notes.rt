// What a walk over the tree notes.
ghost use Rattle.std.specs.Prelude.{◌≡◌, None, Some, IfOk, replicate};
ghost use Rattle.hy_tree.specs.Findings as findings;
ghost use Rattle.hy_tree.specs.Findings.{Stands};
ghost use Rattle.hy_tree.specs.declared.meant.Meant.TheVariants as meaning;
ghost use Rattle.hy_scope.specs.Noted.{note, after};
ghost use Rattle.hy_scope.specs.Shown.{noted};

use hy_base::{BrokenRule, NoMemory, Rule, Span, sooner};
use hy_tree::Meant;
use std::alloc::Global;

/// What a walk over the tree notes: the first broken rule so far, and what names stand for.
#[derive(Drop)]
pub struct Notes {
    pub first: Option<BrokenRule>,
    pub meant: Vec<Meant>,
}

impl Notes {
    /// Nothing is noted, and there is room for what stands at `count` nodes.
    pub fn new(alloc: Global, count: u32) -> Result<Notes, NoMemory>
        ensures { IfOk result (λ notes. noted notes ≡ record { first = None; meant = replicate count meaning.Nothing }) }
    {
        let meant = Vec::from_elem(alloc, Meant::Nothing, count as usize)?;
        Ok(Notes { first: None, meant })
    }

    /// The name at a node stands for this.
    pub fn stands(&mut self, node: u32, meant: Meant)
        ensures { noted self.new ≡ note (Stands node meant) (noted self.old) }
    {
        if let Some(place) = self.meant.get_mut(node as usize) {
            *place = meant;
        }
    }

    /// A rule is broken.
    pub fn breaks(&mut self, rule: Rule, span: Span)
        ensures { noted self.new ≡ note (findings.Broken rule span) (noted self.old) }
    {
        self.first = sooner(self.first, rule, span);
    }

    /// A rule is broken where `broken` says so.
    pub fn when(&mut self, broken: bool, rule: Rule, span: Span)
        ensures { noted self.new ≡ after (findings.when broken (findings.Broken rule span)) (noted self.old) }
    {
        if broken {
            self.breaks(rule, span);
        }
    }

    /// A name that has to stand for something.
    pub fn known(&mut self, rule: Rule, span: Span, node: u32, meant: Option<Meant>)
        ensures { noted self.new ≡ after (findings.known rule span node meant) (noted self.old) }
    {
        match meant {
            Some(meant) => self.stands(node, meant),
            None => self.breaks(rule, span),
        }
    }
}
