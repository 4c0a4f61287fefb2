// Kernels that answer from a list.

ghost use Rattle.std.specs.Prelude.{◌≡◌, ◌≤◌, ◌<◌, length, false, IfOk, IfSome, slice_get, Some};
ghost use Rattle.mw_term.specs.Terms.{Expression, GroundType, KernelType, to, expression_of, kernel_type_of, ground_of};
ghost use Rattle.mw_term.specs.Terms.{ground_value_of};
ghost use Rattle.mw_meaning.specs.GroundValues.{HasGroundType};
ghost use Rattle.mw_machine.specs.KernelCalls.{IsRunAt, IsCallAt, LeavesAtMost, kept_after, ends_all};
ghost use Rattle.mw_script.specs.Replies.{IsValueAt, IsStop, IsNoBad, IfBad, IsNoted};

use mw_machine::{KernelFault, Kernels, Ran};
use mw_term::{Base, BaseValue, Ground, GroundValue, KType, Limit, Term, TrapKind, copied_term};
use std::alloc::{AllocError, Global};

/// What a run or a call answers, where it has the type of the answer.
#[derive(Clone, Copy, Debug, Drop)]
pub enum Reply {
    Number(i64),
    Truth(bool),
    Both(i64, i64),
    Function,
    Divides,
    Full,
    NoMemory,
    /// A digest of 32 such bytes.
    Bad(u8),
}

/// A kept function: its code and its type.
#[derive(Drop)]
pub struct Kept {
    pub code: Term,
    pub kind: KType,
}

/// Kernels that answer a list of replies in turn, half the units left, and the bound of the heap after it or where a
/// reply is not of its type. They note what they were asked.
#[derive(Drop)]
pub struct Script {
    pub alloc: Global,
    pub replies: Vec<Reply>,
    pub next: usize,
    pub kept: Vec<Kept>,
    pub stopped: bool,
    pub digest: [u8; 32],
    pub asked: String,
}

impl Script {
    ghost use Rattle.std.specs.Prelude.{◌||◌};
    ghost use Rattle.mw_script.specs.Scripts.{functions_of, IsSameRest};

    /// Kernels with these replies to come.
    pub fn new(alloc: Global, replies: &[Reply]) -> Result<Script, AllocError>
        ensures open { IfOk result (λ script. script.stopped ≡ false) }
    {
        Ok(Script {
            alloc,
            replies: Vec::from_slice(alloc, replies)?,
            next: 0,
            kept: Vec::new(alloc),
            stopped: false,
            digest: [0; 32],
            asked: String::new(alloc),
        })
    }

    /// What they were asked.
    pub fn asked(&self) -> &str {
        self.asked.as_str()
    }

    /// The reply to what is asked, which is noted.
    fn reply(&mut self, asked: &str) -> Result<Option<Reply>, AllocError>
        ensures kept { self.new.kept ≡ self.old.kept }
        ensures stopped { self.new.stopped ≡ self.old.stopped }
        ensures count { self.old.next ≤ self.new.next }
        ensures rises { IfOk result (λ reply. IfSome reply (λ _. self.old.next < self.new.next)) }
    {
        self.asked.push_str(asked)?;
        let reply = self.replies.get(self.next).copied();
        if reply.is_some() {
            self.next += 1;
        }
        Ok(reply)
    }

    /// Keeps a function of the code at its type.
    fn keep(&mut self, code: &Term, kind: &KType, fuel: u64) -> Result<Ran, KernelFault>
        requires { (s t : GroundType) × (kernel_type_of kind.now ≡ to s t) }
        ensures types { IsRunAt result (kernel_type_of kind.now) (length (functions_of self.old)) }
        ensures left { LeavesAtMost result fuel }
        ensures functions { functions_of self.new
            ≡ kept_after result (expression_of code.now) (kernel_type_of kind.now)
            (functions_of self.old) }
        ensures rest { IsSameRest self.old self.new }
        ensures memory { IsNoBad result }
    {
        let which = self.kept.len();
        let function = Kept {
            code: copied_term(self.alloc, code)?,
            kind: mw_term::copied_kernel_type(self.alloc, kind)?,
        };
        self.kept.push(function).map_err(AllocError::from)?;
        Ok(Ran::Function(which, fuel / 2))
    }

    /// Notes whether an answer ends all, and its digest.
    fn settle(&mut self, answer: &Result<Ran, KernelFault>)
        ensures stops { self.new.stopped ≡ (self.old.stopped || ends_all answer.now) }
        ensures digest { IsNoted answer.now self.new.digest }
        ensures kept { self.new.kept ≡ self.old.kept }
        ensures next { self.new.next ≡ self.old.next }
    {
        match answer {
            Ok(Ran::Value(_, _) | Ran::Function(_, _)) => {}
            Ok(Ran::Trap(_) | Ran::Bound(_)) | Err(KernelFault::Memory(_)) => self.stopped = true,
            Err(KernelFault::Bad(digest)) => {
                self.digest = *digest;
                self.stopped = true;
            }
        }
    }

    /// The answer to a run.
    fn run_answer(&mut self, code: &Term, kind: &KType, fuel: u64) -> Result<Ran, KernelFault>
        ensures types { IsRunAt result (kernel_type_of kind.now) (length (functions_of self.old)) }
        ensures left { LeavesAtMost result fuel }
        ensures functions { functions_of self.new
            ≡ kept_after result (expression_of code.now) (kernel_type_of kind.now)
            (functions_of self.old) }
        ensures stopped { self.new.stopped ≡ self.old.stopped }
        ensures count { self.old.next ≤ self.new.next }
        ensures bad { IfBad result (self.old.next < self.new.next) }
    {
        let asked = format!(in self.alloc; "run {code:?} with {fuel}; ")?;
        let reply = self.reply(asked.as_str())?;
        match (reply, kind) {
            (Some(Reply::Function), KType::Fun(_, _)) => self.keep(code, kind, fuel),
            (Some(reply), KType::Ground(ground)) => value_answer(self.alloc, reply, ground, fuel),
            (Some(reply), KType::Fun(_, _)) => stop_answer(reply),
            (None, _) => Ok(Ran::Bound(Limit::Heap)),
        }
    }

    /// The answer to a call.
    fn call_answer(
        &mut self,
        which: usize,
        argument: &GroundValue,
        fuel: u64,
    ) -> Result<Ran, KernelFault>
        requires here { which < length self.old.kept.items }
        ensures types { (c : Expression) (k : KernelType) → slice_get (functions_of self.old) which
            ≡ Some (c, k)
            → IsCallAt result k }
        ensures left { LeavesAtMost result fuel }
        ensures functions { functions_of self.new ≡ functions_of self.old }
        ensures stopped { self.new.stopped ≡ self.old.stopped }
        ensures count { self.old.next ≤ self.new.next }
        ensures bad { IfBad result (self.old.next < self.new.next) }
    {
        let asked = format!(in self.alloc; "call {which} {argument:?} with {fuel}; ")?;
        let reply = self.reply(asked.as_str())?;
        match (reply, &self.kept[which].kind) {
            (Some(reply), KType::Fun(_, result)) => value_answer(self.alloc, reply, result, fuel),
            _ => Ok(Ran::Bound(Limit::Heap)),
        }
    }
}

/// The value of a ground type that a reply is.
fn value_of(alloc: Global, reply: Reply, ground: &Ground) -> Result<Option<GroundValue>, AllocError>
    ensures { IfOk result
        (λ o. IfSome o (λ value. HasGroundType (ground_of ground.now) (ground_value_of value))) }
{
    Ok(match (reply, ground) {
        (Reply::Number(n), Ground::Base(Base::Int)) => Some(GroundValue::Base(BaseValue::Int(n))),
        (Reply::Truth(b), Ground::Base(Base::Bool)) => Some(GroundValue::Base(BaseValue::Bool(b))),
        (Reply::Both(x, y), Ground::Pair(first, second)) => {
            match (value_of_number(x, first), value_of_number(y, second)) {
                (Some(x), Some(y)) => {
                    let x = Box::new(alloc, x)?;
                    Some(GroundValue::Pair(x, Box::new(alloc, y)?))
                }
                _ => None,
            }
        }
        _ => None,
    })
}

/// A number, where the type is that of numbers.
fn value_of_number(n: i64, ground: &Ground) -> Option<GroundValue>
    ensures { IfSome result
        (λ value. HasGroundType (ground_of ground.now) (ground_value_of value)) }
{
    match ground {
        Ground::Base(Base::Int) => Some(GroundValue::Base(BaseValue::Int(n))),
        Ground::Base(Base::Bool) | Ground::Pair(_, _) => None,
    }
}

/// A reply that is an answer of a ground type.
fn value_answer(alloc: Global, reply: Reply, ground: &Ground, fuel: u64) -> Result<Ran, KernelFault>
    ensures types { IsValueAt result (ground_of ground.now) }
    ensures left { LeavesAtMost result fuel }
{
    match value_of(alloc, reply, ground)? {
        Some(value) => Ok(Ran::Value(value, fuel / 2)),
        None => stop_answer(reply),
    }
}

/// A reply that is no value and no function.
fn stop_answer(reply: Reply) -> Result<Ran, KernelFault>
    ensures { IsStop result }
{
    match reply {
        Reply::Divides => Ok(Ran::Trap(TrapKind::Divide)),
        Reply::NoMemory => Err(KernelFault::Memory(AllocError)),
        Reply::Bad(byte) => Err(KernelFault::Bad([byte; 32])),
        Reply::Number(_) | Reply::Truth(_) | Reply::Both(_, _) | Reply::Function | Reply::Full => {
            Ok(Ran::Bound(Limit::Heap))
        }
    }
}

impl Kernels for Script {
    ghost use Rattle.std.specs.Prelude.{◌||◌, refl};
    ghost use Rattle.mw_meaning.specs.declared.mode.Mode.TheVariants.{Plain};
    ghost use Rattle.mw_script.specs.Scripts.{functions_of};

    ghost mode = { λ _. Plain };

    ghost kept = { functions_of };

    ghost stopped = { λ script. script.stopped };

    ghost bad = { λ script. script.next };

    ghost digest = { λ script. script.digest };

    ghost sound = { λ _ _ _. ⊥ };

    ghost price = { λ _ _ _. 0 };

    ghost cost = { λ _. 0 };

    ghost keeps = { λ _ _. Unit {0} };

    fn run(&mut self, code: &Term, kind: &KType, fuel: u64) -> Result<Ran, KernelFault> {
        let answer = self.run_answer(code, kind, fuel);
        self.settle(&answer);
        answer
    }

    fn call(
        &mut self,
        which: usize,
        argument: &GroundValue,
        fuel: u64,
    ) -> Result<Ran, KernelFault> {
        let answer = self.call_answer(which, argument, fuel);
        self.settle(&answer);
        answer
    }

    ghost keeps_itself = { λ _. tt };

    ghost keeps_through = { λ _ _ _ _ _. tt };

    ghost keeps_mode = { λ _ _ _. refl };

    ghost keeps_sound = { λ _ _ _ _ _. (λ h. h, λ h. h) };

    ghost keeps_price = { λ _ _ _ _ _. refl };
}
