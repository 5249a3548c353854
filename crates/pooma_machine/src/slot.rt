ghost use Rattle.std.specs.Prelude.{◌≡◌, ℕ, None, IfOk, OnOk, OnErr, IsSome, IsTrue, Some};
ghost use Rattle.std.specs.Arc.{arc_value};
ghost use Rattle.pooma_machine.specs.Slots.{content_in};

use crate::work::Work;
use std::alloc::{AllocError, Global};
use std::mem;
use std::sync::Arc;

// Where an object's value is.
#[derive(Drop)]
pub(crate) enum Slot<V> {
    Shared(Arc<V>),
    // As a release gave it back. The next dispatch that reads it puts it into an `Arc`.
    Owned(V),
    // Lent to write.
    Away,
}

/// One more owner of the slot's value, which is there. After want of memory its content is as before.
pub(crate) fn share<W: Work>(
    alloc: Global,
    slot: &mut Slot<W::Value>,
) -> Result<Arc<W::Value>, AllocError>
    requires { IsSome (content_in W.content slot.old) }
    ensures content { content_in W.content slot.new ≡ content_in W.content slot.old }
    ensures ok { IfOk result (λ arc. content_in W.content slot.old ≡ Some (W.content (arc_value arc))) }
{
    match mem::replace(slot, Slot::Away) {
        Slot::Shared(arc) => {
            let shared = Arc::try_clone(&arc);
            *slot = Slot::Shared(arc);
            shared
        }
        Slot::Owned(value) => match Arc::new(alloc, value) {
            Ok(arc) => {
                let shared = Arc::try_clone(&arc);
                *slot = Slot::Shared(arc);
                shared
            }
            Err(failed) => {
                *slot = Slot::Owned(failed.value);
                Err(AllocError)
            }
        },
        Slot::Away => unreachable!(),
    }
}

/// The slot's value, which is there, for one writer alone and ready to be written. It is copied only where another owner
/// still shares it. After want of memory its content is as before.
pub(crate) fn take<W: Work>(
    alloc: Global,
    slot: &mut Slot<W::Value>,
) -> Result<W::Value, AllocError>
    requires { IsSome (content_in W.content slot.old) }
    ensures ok { IfOk result (λ value. content_in W.content slot.old ≡ Some (W.content value)) }
    ensures ready { IfOk result (λ value. IsTrue (W.ready value)) }
    ensures away { OnOk result (content_in W.content slot.new ≡ None) }
    ensures err { OnErr result (content_in W.content slot.new ≡ content_in W.content slot.old) }
{
    match mem::replace(slot, Slot::Away) {
        Slot::Shared(arc) => match Arc::try_unwrap(arc) {
            Ok(value) => take_own::<W>(alloc, slot, value),
            Err(arc) => match copy_ready::<W>(alloc, &arc) {
                Ok(copy) => Ok(copy),
                Err(e) => {
                    *slot = Slot::Shared(arc);
                    Err(e)
                }
            },
        },
        Slot::Owned(value) => take_own::<W>(alloc, slot, value),
        Slot::Away => unreachable!(),
    }
}

// A value that has no other owner, ready to be written. After want of memory it is in the slot, with its content.
fn take_own<W: Work>(
    alloc: Global,
    slot: &mut Slot<W::Value>,
    mut value: W::Value,
) -> Result<W::Value, AllocError>
    ensures ok { IfOk result (λ taken. W.content taken ≡ W.content value) }
    ensures ready { IfOk result (λ taken. IsTrue (W.ready taken)) }
    ensures slot { OnOk result (slot.new ≡ slot.old) }
    ensures err { OnErr result (content_in W.content slot.new ≡ Some (W.content value)) }
{
    match W::prepared(alloc, &mut value) {
        Ok(()) => Ok(value),
        Err(e) => {
            *slot = Slot::Owned(value);
            Err(e)
        }
    }
}

// A copy of the value that is ready to be written.
fn copy_ready<W: Work>(alloc: Global, value: &W::Value) -> Result<W::Value, AllocError>
    ensures content { IfOk result (λ copy. W.content copy ≡ W.content value.now) }
    ensures ready { IfOk result (λ copy. IsTrue (W.ready copy)) }
{
    let mut copy = W::copied(alloc, value)?;
    W::prepared(alloc, &mut copy)?;
    Ok(copy)
}

/// The slot's value, which is there, where others may share it. After want of memory it is given up.
pub(crate) fn into_shared<W: Work>(
    alloc: Global,
    slot: Slot<W::Value>,
) -> Result<Arc<W::Value>, AllocError>
    requires { IsSome (content_in W.content slot) }
    ensures { IfOk result (λ arc. content_in W.content slot ≡ Some (W.content (arc_value arc))) }
{
    match slot {
        Slot::Shared(arc) => Ok(arc),
        Slot::Owned(value) => Ok(Arc::new(alloc, value)?),
        Slot::Away => unreachable!(),
    }
}
