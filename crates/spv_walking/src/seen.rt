ghost use Rattle.std.specs.Prelude.{◌≡◌, ◌||◌};
ghost use Rattle.std.specs.Option.{option_map};
ghost use Rattle.spv_blocks.specs.Seen.{seen_end};
ghost use Rattle.spv_walk.specs.Contexts.{is_back_pair as back_pair_in};
ghost use Rattle.spv_walk.specs.Rows.{is_that as that_in, leaves_level as leaves_in, is_exit_by as exit_by};
ghost use Rattle.spv_walking.specs.Kept.{level_of, seen_of};

use spv_blocks::End;

/// A construct round a place, and the part of it where the place is.
#[derive(Clone, Copy, Debug, PartialEq, Eq)]
pub enum Level {
    /// A selection: its merge block.
    Selection(u32),
    /// One of the targets of a switch: the header and the merge block of the switch, and the target.
    Arm(u32, u32, u32),
    /// The header or the body of a loop: its header, its merge block and its continue target.
    Body(u32, u32, u32),
    /// The continue part of a loop: its header and its merge block.
    Next(u32, u32),
}

/// What a context lets a branch leave, beside its innermost construct, and whether it is in a continue part.
#[derive(Clone, Copy, Debug)]
pub struct Seen {
    /// The merge block of the innermost loop, where the place is in its header or body.
    pub merge: Option<u32>,
    /// The continue target of that loop.
    pub next: Option<u32>,
    /// The merge block of the innermost switch, where no loop lies between.
    pub switch: Option<u32>,
    pub in_next: bool,
}

impl Seen {
    ghost use Rattle.spv_walk.specs.Rows.{seen_outside, seen_within};
    ghost use Rattle.spv_walking.specs.Kept.{level_of, seen_of};

    /// Outside all constructs.
    pub fn outside() -> Seen
        ensures { seen_of result ≡ seen_outside }
    {
        Seen {
            merge: None,
            next: None,
            switch: None,
            in_next: false,
        }
    }

    /// Within one more construct.
    pub fn within(self, level: Level) -> Seen
        ensures { seen_of result ≡ seen_within (level_of level) (seen_of self) }
    {
        match level {
            Level::Selection(_) => self,
            Level::Arm(_, merge, _) => Seen {
                merge: self.merge,
                next: self.next,
                switch: Some(merge),
                in_next: self.in_next,
            },
            Level::Body(_, merge, next) => Seen {
                merge: Some(merge),
                next: Some(next),
                switch: None,
                in_next: self.in_next,
            },
            Level::Next(..) => Seen {
                merge: None,
                next: None,
                switch: None,
                in_next: true,
            },
        }
    }
}

/// Whether the targets are exactly the header and the merge block.
fn is_back_pair(header: u32, merge: u32, end: &End) -> bool
    ensures { result ≡ back_pair_in header merge (seen_end end.now) }
{
    match end {
        End::BranchIf(one, other) => {
            (*one == header && *other == merge) || (*one == merge && *other == header)
        }
        _ => false,
    }
}

/// Whether a label is the target.
fn is_that(label: Option<u32>, target: u32) -> bool
    ensures { result ≡ that_in label target }
{
    match label {
        Some(label) => target == label,
        None => false,
    }
}

/// Whether the target is the merge block or the continue target of the innermost loop, by what is seen.
pub fn leaves_loop_by(seen: Seen, target: u32) -> bool
    ensures { result ≡ (that_in (seen_of seen).merge target || that_in (seen_of seen).next target) }
{
    is_that(seen.merge, target) || is_that(seen.next, target)
}

/// Whether a branch to the target leaves the innermost construct.
fn leaves_level(level: Option<Level>, end: &End, target: u32) -> bool
    ensures { result ≡ leaves_in (option_map level_of level) (seen_end end.now) target }
{
    match level {
        None => false,
        Some(Level::Selection(merge)) => target == merge,
        Some(Level::Arm(_, merge, _)) => target == merge,
        Some(Level::Body(..)) => false,
        Some(Level::Next(header, merge)) => {
            target == header || (target == merge && is_back_pair(header, merge, end))
        }
    }
}

/// Whether a branch to the target is an exit, by the innermost construct and what is seen.
pub fn is_exit_by(level: Option<Level>, seen: Seen, end: &End, target: u32) -> bool
    ensures { result ≡ exit_by (option_map level_of level) (seen_of seen) (seen_end end.now) target }
{
    leaves_level(level, end, target)
        || is_that(seen.switch, target)
        || (is_that(seen.merge, target) || is_that(seen.next, target))
}
