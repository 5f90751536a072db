// The laws of built functions that are edited.

ghost use Rattle.spv_built_edits.specs.Laws.{NormalStays, ShortStays, BuiltStays, BuiltWhereDropped, BuiltWhereReplaced, FitsWhereDropped, FitsWhereValuesStand, LayoutStays, ModuleStays};

/// A function that is built in a module and edited is built in the module that it then stands in, where what the edit puts
/// fits there: in general, where steps are dropped whose results nothing uses, and where uses are replaced by what is
/// available at them. It stays in normal form whatever is put, and its lines stay short where those that are put are. What
/// is put fits where steps are dropped, and where values stand for others of their types.
pub fn edited_law()
    ensures normal { NormalStays }
    ensures short { ShortStays }
    ensures built { BuiltStays }
    ensures dropped { BuiltWhereDropped }
    ensures fits { FitsWhereDropped }
    ensures replaced { BuiltWhereReplaced }
    ensures values { FitsWhereValuesStand }
{}

/// Where each function of a module that is built is edited, and built then, the module is built if it is so round them: no
/// block is more crowded than it was. It is laid out as it was where the instructions outside functions stay.
pub fn module_law()
    ensures module { ModuleStays }
    ensures layout { LayoutStays }
{}
