//! Calls and returns. The caller's topmost operands become the first locals of the callee in the same slots, without a copy.

ghost use Rattle.std.specs.Prelude.{◌≡◌, ◌<◌, ◌≤◌, ◌+◌, ◌-◌, ◌%◌, pos, ◌∷◌, length, None};
ghost use Rattle.std.specs.Int.{w32, cast_unsigned};
ghost use Rattle.jtypes.specs.declared.types.Value.TheVariants.{Int, Long, Ref};
ghost use Rattle.slots.specs.Seen.{AreRowsSame};
ghost use Rattle.slots.specs.Windowed.{ShowsTop};
ghost use Rattle.slots.specs.Leaving.{Enters, HasReceiver, TellsReceiver, LeavesWith, LeavesVoid, HasStayed, HasCaller, AreCellsKept};

use crate::{Caller, Reference, Rows, Window};

impl Window<'_> {
    /// Enters a method: the topmost `params` slots become its first locals.
    /// Pushes `place`, the index of the instruction at which the caller resumes, onto the callers.
    #[inline(always)]
    pub fn enter(&mut self, callers: &mut Rows<Caller>, place: usize, params: u16, locals: u16)
        requires callers { 0 < callers.old.1 }
        requires params { params ≤ self.old.top }
        requires room { self.old.top - params + locals ≤ length self.old.words.now }
        ensures reads { Enters params locals self.old callers.old self.new callers.new }
        ensures rows { AreRowsSame self.old self.new }
        ensures base { self.new.base + params ≡ self.old.top }
        ensures caller { callers.new.0 ≡ record { place = place; base = self.old.base } ∷ callers.old.0 }
        ensures left { callers.new.1 + 1 ≡ callers.old.1 }
    {
        callers.push(Caller {
            place,
            base: self.base,
        });
        self.base = self.top - usize::from(params);
        self.top = self.base + usize::from(locals);
    }

    /// Returns whether the receiver of a call is null. It is the lowest of the arguments, which have `params` slots.
    #[inline(always)]
    pub fn null_below(&self, params: u16) -> bool
        requires { HasReceiver params self.now }
        ensures { TellsReceiver params self.now result }
    {
        matches!(self.kinds[self.top - usize::from(params)], Reference::Null)
    }

    /// Returns to the caller with an int (JVMS §6.5, `ireturn`).
    /// The result is the caller's instruction index, or `None` if there is no caller; then nothing changes.
    #[inline(always)]
    pub fn leave_int(&mut self, callers: &mut Rows<Caller>) -> Option<usize>
        requires { ShowsTop Int self.old }
        ensures reads { LeavesWith Int Int self.old callers.old self.new callers.new result }
        ensures rows { AreRowsSame self.old self.new }
        ensures cells { AreCellsKept callers.old callers.new }
        ensures caller { HasCaller result callers.old.0 }
        ensures stays { result ≡ None → HasStayed self.old callers.old self.new callers.new }
    {
        match callers.pop() {
            Some(caller) => {
                self.words[self.base] = self.words[self.top - 1];
                self.top = self.base + 1;
                self.base = caller.base;
                Some(caller.place)
            }
            None => None,
        }
    }

    /// Returns to the caller with the low bit of an int, as `ireturn` does in a method whose result is a boolean.
    #[inline(always)]
    pub fn leave_boolean(&mut self, callers: &mut Rows<Caller>) -> Option<usize>
        requires { ShowsTop Int self.old }
        ensures reads { LeavesWith Int (λ i. Int (pos (cast_unsigned w32 i % 2))) self.old callers.old self.new callers.new result }
        ensures rows { AreRowsSame self.old self.new }
        ensures cells { AreCellsKept callers.old callers.new }
        ensures caller { HasCaller result callers.old.0 }
        ensures stays { result ≡ None → HasStayed self.old callers.old self.new callers.new }
    {
        match callers.pop() {
            Some(caller) => {
                self.words[self.base] = self.words[self.top - 1] % 2;
                self.top = self.base + 1;
                self.base = caller.base;
                Some(caller.place)
            }
            None => None,
        }
    }

    /// Returns to the caller with a long (JVMS §6.5, `lreturn`).
    #[inline(always)]
    pub fn leave_long(&mut self, callers: &mut Rows<Caller>) -> Option<usize>
        requires { ShowsTop Long self.old }
        ensures reads { LeavesWith Long Long self.old callers.old self.new callers.new result }
        ensures rows { AreRowsSame self.old self.new }
        ensures cells { AreCellsKept callers.old callers.new }
        ensures caller { HasCaller result callers.old.0 }
        ensures stays { result ≡ None → HasStayed self.old callers.old self.new callers.new }
    {
        match callers.pop() {
            Some(caller) => {
                self.words[self.base] = self.words[self.top - 2];
                self.top = self.base + 2;
                self.base = caller.base;
                Some(caller.place)
            }
            None => None,
        }
    }

    /// Returns to the caller with a reference (JVMS §6.5, `areturn`).
    #[inline(always)]
    pub fn leave_reference(&mut self, callers: &mut Rows<Caller>) -> Option<usize>
        requires { ShowsTop Ref self.old }
        ensures reads { LeavesWith Ref Ref self.old callers.old self.new callers.new result }
        ensures rows { AreRowsSame self.old self.new }
        ensures cells { AreCellsKept callers.old callers.new }
        ensures caller { HasCaller result callers.old.0 }
        ensures stays { result ≡ None → HasStayed self.old callers.old self.new callers.new }
    {
        match callers.pop() {
            Some(caller) => {
                self.words[self.base] = self.words[self.top - 1];
                self.kinds[self.base] = self.kinds[self.top - 1];
                self.top = self.base + 1;
                self.base = caller.base;
                Some(caller.place)
            }
            None => None,
        }
    }

    /// Returns to the caller without a value (JVMS §6.5, `return`).
    #[inline(always)]
    pub fn leave_void(&mut self, callers: &mut Rows<Caller>) -> Option<usize>
        ensures reads { LeavesVoid self.old callers.old self.new callers.new result }
        ensures rows { AreRowsSame self.old self.new }
        ensures cells { AreCellsKept callers.old callers.new }
        ensures caller { HasCaller result callers.old.0 }
        ensures stays { result ≡ None → HasStayed self.old callers.old self.new callers.new }
    {
        match callers.pop() {
            Some(caller) => {
                self.top = self.base;
                self.base = caller.base;
                Some(caller.place)
            }
            None => None,
        }
    }
}
