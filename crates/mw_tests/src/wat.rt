// Texts read: modules written again, and texts of no module with their first bad places. The worked texts are those of
// specs/WorkedTexts.

use mw_wat::{WatFault, read_wat, write_wat};
use std::alloc::{AllocError, Global};
use std::test::Fail;

/// The canonical text of the module whose text this is.
fn rewritten(alloc: Global, text: &[u8]) -> Result<Vec<u8>, WatFault> {
    let wasm = read_wat(alloc, text)?;
    Ok(write_wat(alloc, &wasm)?)
}

/// The first bad place.
fn bad_place(alloc: Global, text: &[u8]) -> Result<Option<u32>, AllocError> {
    match read_wat(alloc, text) {
        Ok(_) => Ok(None),
        Err(WatFault::Bad(at)) => Ok(Some(at)),
        Err(WatFault::Memory(e)) => Err(e),
    }
}

const CONSTANT: &[u8] = b"(module
(type (func (param i64 i64) (result i64)))
(type (func (result i64)))
(func (type 1) i64.const 7)
(table 0 0 funcref)
(memory 64 64)
(global (mut i32) i32.const 0)
(export \"init\" (func 0))
)
";

const CUBE: &[u8] = b"(module
(type (func (param i64 i64) (result i64)))
(type (func (result i64)))
(type (func (param i64 i64) (result i64)))
(func (type 0) local.get 1 local.get 1 local.get 1 i64.const 1 i64.mul i64.mul i64.mul)
(func (type 1) global.get 0 i64.const 0 i64.store offset=0 exp=3 global.get 0 i64.extend_i32_u \
global.get 0 i32.const 8 i32.add global.set 0)
(func (type 2) (local i64 i64 i32) global.get 0 local.set 4 local.get 0 local.get 1 local.set 3 \
local.tee 2 local.get 3 local.get 2 i32.wrap_i64 i32.load offset=0 exp=2 call_indirect (type 0) \
local.get 4 global.set 0)
(table 1 1 funcref)
(memory 64 64)
(global (mut i32) i32.const 0)
(export \"init\" (func 1))
(export \"call\" (func 2))
(elem (offset i32.const 0) 0)
)
";

/// A function with each word, the greatest and the least numbers, and all shapes of lists.
const WORDS: &[u8] =
    b"(module\n(func (type 0) unreachable nop return drop select memory.size memory.grow br 0 br_if 4294967295 \
call 1 local.get 2 local.set 3 local.tee 4 global.get 5 global.set 6 i32.const -2147483648 i64.const \
9223372036854775807 br_table 1 br_table 0 1 2 call_indirect (type 3) block end block (result i32) nop end \
loop end loop (result i64) br 0 end if end if nop end if nop else nop end if (result i32) if else nop end \
else nop end i32.eqz i32.eq i32.ne i32.lt_s i32.lt_u i32.gt_s i32.gt_u i32.le_s i32.le_u i32.ge_s i32.ge_u \
i32.clz i32.ctz i32.popcnt i32.add i32.sub i32.mul i32.div_s i32.div_u i32.rem_s i32.rem_u i32.and i32.or \
i32.xor i32.shl i32.shr_s i32.shr_u i32.rotl i32.rotr i64.eqz i64.eq i64.ne i64.lt_s i64.lt_u i64.gt_s \
i64.gt_u i64.le_s i64.le_u i64.ge_s i64.ge_u i64.clz i64.ctz i64.popcnt i64.add i64.sub i64.mul i64.div_s \
i64.div_u i64.rem_s i64.rem_u i64.and i64.or i64.xor i64.shl i64.shr_s i64.shr_u i64.rotl i64.rotr \
i32.wrap_i64 i64.extend_i32_s i64.extend_i32_u i32.load offset=4294967295 exp=0 i64.load offset=4294967295 \
exp=1 i32.load8_s offset=4294967295 exp=2 i32.load8_u offset=4294967295 exp=3 i32.load16_s \
offset=4294967295 exp=4 i32.load16_u offset=4294967295 exp=5 i64.load8_s offset=4294967295 exp=6 \
i64.load8_u offset=4294967295 exp=7 i64.load16_s offset=4294967295 exp=8 i64.load16_u offset=4294967295 \
exp=9 i64.load32_s offset=4294967295 exp=10 i64.load32_u offset=4294967295 exp=11 i32.store \
offset=4294967295 exp=12 i64.store offset=4294967295 exp=13 i32.store8 offset=4294967295 exp=14 i32.store16 \
offset=4294967295 exp=15 i64.store8 offset=4294967295 exp=16 i64.store16 offset=4294967295 exp=17 \
i64.store32 offset=4294967295 exp=18)\n)\n";

const CANONICAL: &[&[u8]] = &[CONSTANT, CUBE, WORDS, b"(module\n)\n"];

#[test]
fn canonical_texts_are_read(rt: HostRuntime) -> Result<(), Fail> {
    for &text in CANONICAL {
        let found = rewritten(rt.alloc(), text)?;
        assert_eq!(rt; found.as_slice(), text);
    }
    Ok(())
}

/// Texts, and the canonical texts of the same modules.
const SPELLINGS: &[(&str, &str)] = &[
    ("(module)", "(module\n)\n"),
    ("\t\r\n ( module ) ", "(module\n)\n"),
    (
        "(module(export\"a\\22\\5c\\7a\"(func 0))(data(offset)\"\"))",
        "(module\n(export \"a\\22\\5cz\" (func 0))\n(data (offset) \"\")\n)\n",
    ),
    (
        "(module(data(offset i32.const 8)\"ab\\00\\ff\"))",
        "(module\n(data (offset i32.const 8) \"\\61\\62\\00\\ff\")\n)\n",
    ),
    (
        "(module(func(type 7)(local i32)br_table 0 call_indirect(type 1))(elem(offset)0 1))",
        "(module\n(func (type 7) (local i32) br_table 0 call_indirect (type 1))\n(elem (offset) 0 1)\n)\n",
    ),
];

#[test]
fn other_spellings_are_read(rt: HostRuntime) -> Result<(), Fail> {
    for &(text, canonical) in SPELLINGS {
        let found = rewritten(rt.alloc(), text.as_bytes())?;
        assert_eq!(rt; found.as_slice(), canonical.as_bytes());
    }
    Ok(())
}

/// Texts of no module, and their first bad places.
const REFUSED: &[(&str, u32)] = &[
    ("", 0),
    ("(modul)", 1),
    ("(module", 7),
    ("(module)x", 8),
    ("(module))", 8),
    ("module", 0),
    (";; text", 0),
    ("(; text ;)", 1),
    ("(module (type (func (result i32 i32))))", 32),
    ("(module (type (func (param))))", 26),
    ("(module (func (type 0)) (type (func)))", 25),
    ("(module (table 0 funcref) (table 0 funcref))", 27),
    ("(module (table 100001 funcref))", 15),
    ("(module (memory 1025))", 16),
    ("(module (memory 1 4294967296))", 18),
    ("(module (global i32 (i32.const 0)))", 20),
    ("(module (export \"a\\1f\" (func 0)))", 16),
    ("(module (export \"a", 16),
    ("(module (export \"a\\4A\" (func 0)))", 16),
    ("(module (func (type 0) i32.const 2147483648))", 33),
    ("(module (func (type 0) i32.const -2147483649))", 33),
    ("(module (func (type 0) i32.const -0))", 33),
    ("(module (func (type 0) i32.const +1))", 33),
    ("(module (func (type 0) i32.const 01))", 33),
    ("(module (func (type 0) i64.const 9223372036854775808))", 33),
    ("(module (func (type 0) br_table))", 31),
    ("(module (func (type 0) br_table 0 drop -1))", 39),
    ("(module (func (type 0) br $l))", 26),
    ("(module (func (type 0) call_indirect 0))", 37),
    ("(module (func (type 0) i32.load))", 31),
    ("(module (func (type 0) i32.load offset=0))", 40),
    ("(module (func (type 0) i32.load exp=0 offset=0))", 32),
    ("(module (func (type 0) i32.load offset= 0 exp=0))", 32),
    ("(module (func (type 0) if nop else end))", 35),
    ("(module (func (type 0) if nop else nop else nop end))", 39),
    ("(module (func (type 0) block else end))", 29),
    ("(module (func (type 0) block))", 28),
    ("(module (func (type 0) end))", 23),
    ("(module (func (type 0) block (param i32) end))", 30),
    ("(module (func (type 0) (nop)))", 24),
    ("(module (func (type 0) f32.add))", 23),
    ("(module (func (type 0) NOP))", 23),
    ("(module (func (type 0) nop \"a\"))", 27),
    ("(module (func (type 0) nop\u{7f}))", 26),
    ("(module (func (type 0) nop\u{1} ))", 26),
    ("(module (data (offset) \"a\u{1}\"))", 23),
];

#[test]
fn refused_texts_have_places(rt: HostRuntime) -> Result<(), AllocError> {
    for &(text, at) in REFUSED {
        let found = bad_place(rt.alloc(), text.as_bytes())?;
        assert_eq!(rt; found, Some(at), "{text}");
    }
    Ok(())
}

/// Puts a piece so many times.
fn put_times(text: &mut Vec<u8>, piece: &[u8], times: u32) -> Result<(), AllocError> {
    for _ in 0..times {
        text.extend_from_slice(piece)?;
    }
    Ok(())
}

/// Puts a function in which blocks stand this deep.
fn put_nested(text: &mut Vec<u8>, depth: u32) -> Result<(), AllocError> {
    text.extend_from_slice(b"(module (func (type 0)")?;
    put_times(text, b" block", depth)?;
    put_times(text, b" end", depth)?;
    text.extend_from_slice(b"))")
}

/// Puts a function with this many further locals.
fn put_with_locals(text: &mut Vec<u8>, count: u32) -> Result<(), AllocError> {
    text.extend_from_slice(b"(module (func (type 0) (local")?;
    put_times(text, b" i32", count)?;
    text.extend_from_slice(b")))")
}

fn nested_place(alloc: Global, depth: u32) -> Result<Option<u32>, AllocError> {
    let mut text = Vec::new(alloc);
    put_nested(&mut text, depth)?;
    bad_place(alloc, text.as_slice())
}

fn locals_place(alloc: Global, count: u32) -> Result<Option<u32>, AllocError> {
    let mut text = Vec::new(alloc);
    put_with_locals(&mut text, count)?;
    bad_place(alloc, text.as_slice())
}

#[test]
fn limits_are_kept(rt: HostRuntime) -> Result<(), AllocError> {
    assert_eq!(rt; nested_place(rt.alloc(), 500)?, None);
    assert_eq!(rt; nested_place(rt.alloc(), 501)?, Some(3023));
    assert_eq!(rt; locals_place(rt.alloc(), 50_000)?, None);
    assert_eq!(rt; locals_place(rt.alloc(), 50_001)?, Some(200_030));
    Ok(())
}
