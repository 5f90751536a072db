//! Laws of the tables that a walk through a function fills.
ghost use Rattle.spv_walk.specs.Tables.{NamedOnce, OneTop, TopsBegin, TopsTurn, TopsEnd, TopsAlong, TopsTargets, ReachBegins, ReachTurns, ReachEnds, ReachCases};
ghost use Rattle.spv_walk.specs.Tables.{LeftBegins, LeftTurns, LeftEnds, EntersFromList, LoneEnters, EntersLone};
ghost use Rattle.spv_walk.specs.Walked.{OneContext, WalkBegins, WalkTurns, WalkEnds, WalkSteps, StepsByTable, BrokenByTable};
ghost use Rattle.spv_walk.specs.Found.{BackEdgeByTable, FoundByTables, FirstByTables, FirstOfList, FirstOfTwo};
ghost use Rattle.spv_walk.specs.Rows.{ContextStays, OneContextOfRow, ContextAdded, RowAdded, SeenIsEnough};
ghost use Rattle.spv_walk.specs.Letter.{BackIsWalked, FallIsNotCounted, EnteredIsNoFall, FallIsLed, FallByArms};

/// A label that merge instructions name once belongs to one header, and a block stands at the top of the continue part
/// of one loop at most.
pub fn one_header_and_one_top()
    ensures named_once { NamedOnce }
    ensures one_top { OneTop }
{}

/// A table of tops that is filled with a worklist: how it begins, what each turn has to show, and that it is exact at
/// the end.
pub fn tables_of_tops()
    ensures begins { TopsBegin }
    ensures turn { TopsTurn }
    ensures ends { TopsEnd }
    ensures along { TopsAlong }
    ensures targets { TopsTargets }
{}

/// Marks of what is reached from several starts, set with a worklist: likewise; and what they tell of the cases of a
/// switch.
pub fn marks_of_what_is_reached()
    ensures begins { ReachBegins }
    ensures turn { ReachTurns }
    ensures ends { ReachEnds }
    ensures cases { ReachCases }
{}

/// The branches to a label that are counted, from the tops and the marks of each switch that has it as a case; and the
/// block from which it may be entered.
pub fn counted_branches()
    ensures begins { LeftBegins }
    ensures turn { LeftTurns }
    ensures ends { LeftEnds }
    ensures enters { EntersFromList }
    ensures lone_enters { LoneEnters }
    ensures enters_lone { EntersLone }
{}

/// A walked block stands in one context. A table of walked blocks, one context a block, that is filled with a worklist:
/// how it begins, what each turn has to show, that it is exact at the end, and that the same rules are broken through
/// it.
pub fn tables_of_walked_blocks()
    ensures one_context { OneContext }
    ensures begins { WalkBegins }
    ensures turn { WalkTurns }
    ensures ends { WalkEnds }
    ensures steps { WalkSteps }
    ensures targets { StepsByTable }
    ensures same_broken { BrokenByTable }
    ensures back_edge { BackEdgeByTable }
    ensures same_found { FoundByTables }
{}

/// The first broken rule: from the lists of the walked blocks, or where they hold nothing, of the blocks that are
/// missing in the table; and the first of a list and of two.
pub fn first_broken_rule()
    ensures by_tables { FirstByTables }
    ensures of_list { FirstOfList }
    ensures of_two { FirstOfTwo }
{}

/// Contexts in one list of rows: a place has one context, which stays when rows are added; and what is to be seen of a
/// context to tell the exits from it.
pub fn contexts_in_rows()
    ensures stays { ContextStays }
    ensures one { OneContextOfRow }
    ensures added { ContextAdded }
    ensures placed { RowAdded }
    ensures seen { SeenIsEnough }
{}

/// What is not counted is not entered in the walk either: a back edge of a walked loop is one in the walk, and a branch
/// to another case that no merge instruction names is never counted; so where a label is entered, no other case need be
/// looked for. Another case is a label that the header of a switch round the place leads to.
pub fn counted_in_the_walk()
    ensures back { BackIsWalked }
    ensures fall { FallIsNotCounted }
    ensures entered { EnteredIsNoFall }
    ensures led { FallIsLed }
    ensures arms { FallByArms }
{}
