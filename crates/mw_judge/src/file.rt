// Files of modules.

ghost use Rattle.std.specs.Prelude.{◌≡◌, ◌<◌, ◌^◌, length, IfOk, IfErr};
ghost use Rattle.mw_wasm.specs.Syntax.{PureModule};
ghost use Rattle.mw_wasm.specs.Views.{module_of};
ghost use Rattle.mw_wat.specs.CanonicalTexts.{canonical_text};
ghost use Rattle.mw_judge.specs.ModuleFiles.{
  begins_binary,
  IsBinary,
  IsFileOf,
  IsBadBinary,
  IsBadFile,
  Judges,
};
ghost use Rattle.mw_judge.specs.FileAnswers.{IfBad, UnlessMemory};

use crate::fault::FileFault;
use mw_decode::decode;
use mw_validate::{ValidFault, validate};
use mw_wasm::Module;
use mw_wat::{read_wat, write_wat};
use std::alloc::Global;

/// The canonical text of the module that the bytes spell, or their first fault as a binary module. `Memory` comes where
/// memory runs out.
pub fn binary_text(alloc: Global, bytes: &[u8]) -> Result<Vec<u8>, FileFault>
    ensures written { IfOk result
        (λ text. (m : PureModule) × IsBinary bytes.now m × (text.items ≡ canonical_text m)) }
    ensures bad { IfErr result (IfBad (IsBadBinary bytes.now)) }
    ensures found { (m : PureModule) → IsBinary bytes.now m
        → UnlessMemory (λ text. text.items ≡ canonical_text m) result }
{
    let module = decode(alloc, bytes)?;
    let text = write_wat(alloc, &module)?;
    Ok(text)
}

/// Whether the module of a file is valid. A file that begins with 00 is read as a binary module, and any other one as a
/// text. An error is the file's first fault, or `Memory` where memory runs out.
pub fn judge(alloc: Global, bytes: &[u8]) -> Result<bool, FileFault>
    ensures judged { IfOk result
        (λ valid. (m : PureModule) × IsFileOf bytes.now m × Judges valid m) }
    ensures bad { IfErr result (IfBad (IsBadFile bytes.now)) }
    ensures found { (m : PureModule) → IsFileOf bytes.now m
        → UnlessMemory (λ valid. Judges valid m) result }
{
    let module = file_module(alloc, bytes)?;
    match validate(alloc, module) {
        Ok(_) => Ok(true),
        Err(ValidFault::Bad(_)) => Ok(false),
        Err(ValidFault::Memory(error)) => Err(FileFault::Memory(error)),
    }
}

/// The module of a file.
fn file_module(alloc: Global, bytes: &[u8]) -> Result<Module, FileFault>
    ensures read { IfOk result (λ m. IsFileOf bytes.now (module_of m)) }
    ensures few { IfOk result (λ m. (length m.elements < 2 ^ 32) × (length m.segments < 2 ^ 32)) }
    ensures bad { IfErr result (IfBad (IsBadFile bytes.now)) }
    ensures found { (m : PureModule) → IsFileOf bytes.now m
        → UnlessMemory (λ read. module_of read ≡ m) result }
{
    if is_binary(bytes) {
        let module = decode(alloc, bytes)?;
        Ok(module)
    } else {
        let module = read_wat(alloc, bytes)?;
        Ok(module)
    }
}

/// Whether a file begins with 00.
fn is_binary(bytes: &[u8]) -> bool
    ensures { result ≡ begins_binary bytes.now }
{
    match bytes {
        [0x00, ..] => true,
        _ => false,
    }
}
