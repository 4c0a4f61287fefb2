// Laws of files, which no program calls.

ghost use Rattle.mw_judge.specs.FileLaws.{
  BinaryHasOneFault,
  BinaryHasOneModule,
  BinaryOrBad,
  FileHasOneFault,
  FileHasOneModule,
  FileOrBad,
  NeverBadAndBinary,
  NeverBadAndFile,
  ValidityIsDecided,
};

/// Bytes are a file of one module, and spell one within the profile.
pub fn one_module()
    ensures file { FileHasOneModule }
    ensures binary { BinaryHasOneModule }
{}

/// What has a module has no fault.
pub fn never_both()
    ensures file { NeverBadAndFile }
    ensures binary { NeverBadAndBinary }
{}

/// Bytes have one first fault.
pub fn one_fault()
    ensures file { FileHasOneFault }
    ensures binary { BinaryHasOneFault }
{}

/// Bytes have a module or a fault.
pub fn always_one()
    ensures file { FileOrBad }
    ensures binary { BinaryOrBad }
{}

/// A module is valid or it isn't.
pub fn validity_is_decided()
    ensures { ValidityIsDecided }
{}
