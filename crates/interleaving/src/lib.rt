//! Asynchronous machines and the law over schedules.
//!
//! Invocations in workgroups take private steps and make accesses to one shared memory. The definitions are in
//! `specs/`; each function here has a law over them as its contract, and does nothing when it is called. A law ranges
//! over all machines of a kind: such a case is a trait's ghost member, so that a law is a function with a type
//! parameter.
#![tactic(auto)]

ghost use Rattle.interleaving.specs.Laws.{TwoPrograms, ThreePrograms, ThreeTraces, OneChange, TwoMachines, TwoSides, OneMachine};
ghost use Rattle.interleaving.specs.Laws.{ScheduleLaw, FinalsChain, FinalsOfNone, AccessChain, AccessesOfNone, NothingLost, ChainBegins, LeftOutAreOfKind, SimulationLaw, KeepsBetween, TraceLaw};
ghost use Rattle.std.specs.Prelude.{◌≡◌, ℕ, ◌==◌, ◌&&◌, not, ◌⊎◌, List, [], ◌∷◌, is_none};
ghost use Rattle.interleaving.specs.Machine.{step, Ends, Finals};
ghost use Rattle.interleaving.specs.Trace.{Returned, Asks, Runs, Stuck, ended, wanted, trace_of};
ghost use Rattle.interleaving.specs.Laws.{SameFinals};
ghost use Rattle.interleaving.specs.Example.{Act, Load, Exchange, Add, Barrier, Skip, Spin, Makes, Copy, Swap, Await, Trap, look, one_workgroup, two_workgroups, two_and_one, doing, drop_unread, Leads, KeepsRead};
ghost use Rattle.interleaving.specs.Small.{two_programs, three_programs, three_traces, one_change, two_machines, two_sides, one_machine};

/// Two programs and the effects of their accesses.
pub trait ProgramPair {
    ghost programs: { TwoPrograms };
}

/// Three programs, each of which keeps what the one before it leaves in memory.
pub trait ProgramTriple {
    ghost programs: { ThreePrograms };
}

/// The traces of three invocations.
pub trait TraceTriple {
    ghost traces: { ThreeTraces };
}

/// One invocation and the traces beside it.
pub trait Change {
    ghost change: { OneChange };
}

/// Two machines and a relation between their states.
pub trait MachinePair {
    ghost machines: { TwoMachines };
}

/// Two invocations, each with another account of its traces.
pub trait Accounts {
    ghost sides: { TwoSides };
}

/// One machine.
pub trait Machine {
    ghost machine: { OneMachine };
}

/// The small machine, on which the definitions are tried: each law stands of it too.
pub struct Small;

impl ProgramPair for Small {
    ghost programs = { two_programs };
}

impl ProgramTriple for Small {
    ghost programs = { three_programs };
}

impl TraceTriple for Small {
    ghost traces = { three_traces };
}

impl Change for Small {
    ghost change = { one_change };
}

impl MachinePair for Small {
    ghost machines = { two_machines };
}

impl Accounts for Small {
    ghost sides = { two_sides };
}

impl Machine for Small {
    ghost machine = { one_machine };
}

/// The law over schedules: where alike accesses do alike to alike memories, left-out accesses change nothing and are no
/// barriers, and each invocation of the second program keeps the accesses of the first, then, if every schedule of the
/// first returns, so does every schedule of the second, and their final memories are the same up to alikeness.
pub fn schedule_law<P: ProgramPair>()
    ensures { ScheduleLaw P.programs }
{}

/// Final memories compose, step by step, and over no change they are the same.
pub fn finals_chain<P: ProgramTriple>()
    ensures chain { FinalsChain P.programs }
    ensures none { FinalsOfNone P.programs }
{}

/// Accesses kept by each of two neighbours are kept by both, where what is left out is told by the answers before it;
/// over no change all are kept, and so they are where nothing is of the kind that may be left out.
pub fn access_chain<T: TraceTriple>()
    ensures chain { AccessChain T.traces }
    ensures none { AccessesOfNone T.traces }
    ensures nothing { NothingLost T.traces }
{}

/// One change whose left-out accesses are told by a test begins such a chain; what a chain leaves out of a trace is of
/// its kind.
pub fn chain_begins<C: Change>()
    ensures begins { ChainBegins C.change }
    ensures of_kind { LeftOutAreOfKind C.change }
{}

/// States in a relation of four cases keep accesses: a private step, a left-out access, a kept access, a return.
pub fn simulation<M: MachinePair>()
    ensures { SimulationLaw M.machines }
{}

/// Accesses kept between two accounts of what invocations do are kept between their machines.
pub fn keeps_between<A: Accounts>()
    ensures { KeepsBetween A.sides }
{}

/// A trace that is over does not change with more instructions, and not with more answers where none is asked.
pub fn trace_law<M: Machine>()
    ensures { TraceLaw M.machine }
{}

/// Facts of a few invocations, each with a list of things to do, and one word of memory.
///
/// Two invocations that come to a barrier return; the first to come waits, though it has more to do, and the second
/// releases both. One that returns lets the other wait for ever, unless the other is alone in its workgroup; a barrier
/// releases its own workgroup alone. What is stored before a barrier comes before what is stored behind it. One that is
/// stuck, a spin loop, and a wait for a word that some schedules never store do not end, though the last has a final
/// memory. Two exchanges leave either word and no other, two additions their sum. A load answers what was stored, an
/// exchange what was there before it, and a load and a store may lose what is stored between them.
pub fn facts_of_schedules()
    ensures barrier_ends { Ends one_workgroup (doing (Makes Barrier ∷ []) (Makes Barrier ∷ [])) }
    ensures barrier_waits { let p = doing (Makes Barrier ∷ Skip ∷ []) (Makes Barrier ∷ []) in Leads one_workgroup p (0 ∷ []) (λ w. w.waits 0 && is_none (step one_workgroup p w 0)) }
    ensures barrier_releases { Leads one_workgroup (doing (Makes Barrier ∷ []) (Makes Barrier ∷ [])) (0 ∷ 1 ∷ []) (λ w. not (w.waits 0) && not (w.waits 1)) }
    ensures waits_for_ever { ¬ (Ends one_workgroup (doing [] (Makes Barrier ∷ []))) }
    ensures own_workgroup { Ends two_workgroups (doing [] (Makes Barrier ∷ [])) }
    ensures releases_its_own { Leads two_and_one (doing (Makes Barrier ∷ []) (Makes Barrier ∷ [])) (0 ∷ 2 ∷ []) (λ w. w.waits 0 && not (w.waits 2)) }
    ensures ordered { (m : ℕ) → Finals one_workgroup (doing (Makes (Exchange 1) ∷ Makes Barrier ∷ []) (Makes Barrier ∷ Makes (Exchange 2) ∷ [])) m → m ≡ 2 }
    ensures trap { ¬ (Ends one_workgroup (doing (Trap ∷ []) [])) }
    ensures spin { ¬ (Ends one_workgroup (doing (Spin ∷ []) [])) }
    ensures unfair { ¬ (Ends one_workgroup (doing (Await ∷ []) (Makes (Exchange 1) ∷ []))) }
    ensures awaited { Finals one_workgroup (doing (Await ∷ []) (Makes (Exchange 1) ∷ [])) 1 }
    ensures exchanges_end { (m : ℕ) → Finals one_workgroup (doing (Makes (Exchange 1) ∷ []) (Makes (Exchange 2) ∷ [])) m → (m ≡ 1) ⊎ (m ≡ 2) }
    ensures exchange_first { Finals one_workgroup (doing (Makes (Exchange 1) ∷ []) (Makes (Exchange 2) ∷ [])) 1 }
    ensures exchange_last { Finals one_workgroup (doing (Makes (Exchange 1) ∷ []) (Makes (Exchange 2) ∷ [])) 2 }
    ensures additions { (m : ℕ) → Finals one_workgroup (doing (Makes (Add 1) ∷ []) (Makes (Add 2) ∷ [])) m → m ≡ 3 }
    ensures copies { (m : ℕ) → Finals one_workgroup (doing (Makes (Exchange 7) ∷ Copy ∷ []) []) m → m ≡ 7 }
    ensures swaps_back { (m : ℕ) → Finals one_workgroup (doing (Swap 7 ∷ []) []) m → m ≡ 0 }
    ensures lost_exchange { Finals one_workgroup (doing (Copy ∷ []) (Makes (Exchange 5) ∷ [])) 0 }
{}

/// Facts of traces: what ends one within no instruction, and what costs an instruction.
pub fn facts_of_traces()
    ensures returned { trace_of look [] 0 [] ≡ ended Returned }
    ensures stuck { trace_of look (Trap ∷ []) 0 [] ≡ ended Stuck }
    ensures asks { trace_of look (Makes Barrier ∷ []) 0 [] ≡ wanted Barrier }
    ensures runs { trace_of look (Skip ∷ []) 0 [] ≡ ended Runs }
    ensures answer_costs { trace_of look (Makes Barrier ∷ []) 0 ([] ∷ []) ≡ ended Runs }
    ensures last { trace_of look (Makes (Exchange 1) ∷ Makes Barrier ∷ []) 1 ((0 ∷ []) ∷ []) ≡ record { accesses = Exchange 1 ∷ Barrier ∷ []; end = Asks } }
    ensures answer_is_read { trace_of look (Copy ∷ []) 2 ((7 ∷ []) ∷ [] ∷ []) ≡ record { accesses = Load 1 ∷ Exchange 7 ∷ []; end = Returned } }
    ensures spin_runs { (n : ℕ) → trace_of look (Spin ∷ []) n [] ≡ ended Runs }
{}

/// Facts of accesses kept: unread loads may go, and the law over schedules applies where they do; no barrier, store,
/// load that is read or return may be dropped, nor a store before a loop that never ends, and none may be added or
/// moved.
pub fn facts_of_keeping()
    ensures drops_unread { (acts : List Act) → KeepsRead acts (drop_unread acts) }
    ensures law_applies { (a b : List Act) → Ends one_workgroup (doing a b) → SameFinals one_workgroup (doing a b) one_workgroup (doing (drop_unread a) (drop_unread b)) (λ m n. m ≡ n) }
    ensures barrier_is_kept { ¬ (KeepsRead (Makes Barrier ∷ []) []) }
    ensures exchange_is_kept { ¬ (KeepsRead (Makes (Exchange 1) ∷ []) []) }
    ensures read_load_is_kept { ¬ (KeepsRead (Copy ∷ []) []) }
    ensures nothing_is_added { ¬ (KeepsRead [] (Makes (Exchange 1) ∷ [])) }
    ensures return_is_kept { ¬ (KeepsRead [] (Spin ∷ [])) }
    ensures kept_before_spin { ¬ (KeepsRead (Makes (Exchange 1) ∷ Spin ∷ []) (Spin ∷ [])) }
    ensures order_is_kept { ¬ (KeepsRead (Makes (Exchange 1) ∷ Makes (Exchange 2) ∷ []) (Makes (Exchange 2) ∷ Makes (Exchange 1) ∷ [])) }
{}

/// The laws at the small machine, as a caller gets them from their contracts.
pub fn laws_of_small()
    ensures schedules { ScheduleLaw two_programs }
    ensures finals { FinalsChain three_programs }
    ensures accesses { AccessChain three_traces }
    ensures begins { ChainBegins one_change }
    ensures simulation { SimulationLaw two_machines }
    ensures between { KeepsBetween two_sides }
    ensures traces { TraceLaw one_machine }
{
    schedule_law::<Small>();
    finals_chain::<Small>();
    access_chain::<Small>();
    chain_begins::<Small>();
    simulation::<Small>();
    keeps_between::<Small>();
    trace_law::<Small>();
}
