// The laws of the machine.

ghost use Rattle.spv_machine.specs.Laws.{ModulesLaw, SchedulesLaw, SilenceLaw, StripLaw, StripWordsLaw};

/// The law over schedules, of this machine: where each invocation of one module keeps the accesses of another, up to a
/// one-to-one renaming of Workgroup variables and but for plain loads, and their workgroups have one size, then, if
/// every schedule of the other returns, so does every schedule of the one, and both can leave the same buffers.
pub fn schedules_law()
    ensures one_dispatch { SchedulesLaw }
    ensures all_dispatches { ModulesLaw }
{}

/// A module without some of the instructions that say nothing, which are debug instructions and line marks, means the
/// same.
pub fn silence_law()
    ensures { SilenceLaw }
{}

/// A module without its debug instructions means the same, also where what is left is written and read again.
pub fn strip_law()
    ensures means_same { StripLaw }
    ensures written { StripWordsLaw }
{}
