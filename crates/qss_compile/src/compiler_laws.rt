//! Theorems about the compilation of sources. Each is the contract of a function with an empty
//! body.

ghost use Rattle.qss_compile.specs.SourceLaws.{CompiledMachinesAreUnique, CompiledSourcesAreNotRefused, CausesAreUnique, SourcesAreDecided, SpelledModelsAreWellFormed};

/// A source denotes at most one machine.
pub fn compiled_machines_are_unique()
    ensures { CompiledMachinesAreUnique }
{}

/// A source that denotes a machine is not rejected.
pub fn compiled_sources_are_accepted()
    ensures { CompiledSourcesAreNotRefused }
{}

/// A source is rejected for exactly one cause, up to the choice of a cycle or of the name error at
/// one place.
pub fn compile_causes_are_unique()
    ensures { CausesAreUnique }
{}

/// Each source denotes a machine or is rejected.
pub fn compile_decides_sources()
    ensures { SourcesAreDecided }
{}

/// A model that is parsed from tokens is well formed, as unrolling requires.
pub fn compiled_models_are_formed()
    ensures { SpelledModelsAreWellFormed }
{}
