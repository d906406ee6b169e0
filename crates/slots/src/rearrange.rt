//! The stack instructions from `pop` to `swap` (JVMS §6.5).
//! They copy slots regardless of the values in them, so they need no value sizes: a long is two slots.

ghost use Rattle.std.specs.Prelude.{◌≡◌, ◌<◌, length};
ghost use Rattle.jtypes.specs.declared.operations.Rearrangement.TheVariants.{Pop, Pop2, Dup, DupX1, DupX2, Dup2, Dup2X1, Dup2X2, Swap};
ghost use Rattle.slots.specs.Seen.{IsSame};
ghost use Rattle.slots.specs.Windowed.{ShowsForm, Rearranges};
ghost use Rattle.slots.specs.Picking.{CanPick, ArePicked, IsCopied};

use crate::Window;
use jtypes::Rearrangement;

impl Window<'_> {
    /// Copies a slot: its word and its kind.
    fn copy(&mut self, from: usize, to: usize)
        requires from { from < length self.old.words.now }
        requires to { to < length self.old.words.now }
        requires lengths { length self.old.words.now ≡ length self.old.kinds.now }
        ensures { IsCopied self.old self.new from to }
    {
        self.words[to] = self.words[from];
        self.kinds[to] = self.kinds[from];
    }

    fn pop(&mut self)
        requires { CanPick Pop self.old }
        ensures { ArePicked Pop self.old self.new }
    {
        self.top -= 1;
    }

    fn pop2(&mut self)
        requires { CanPick Pop2 self.old }
        ensures { ArePicked Pop2 self.old self.new }
    {
        self.top -= 2;
    }

    fn dup(&mut self)
        requires { CanPick Dup self.old }
        ensures { ArePicked Dup self.old self.new }
    {
        let floor = self.top - 1;
        self.copy(floor, floor + 1);
        self.top = floor + 2;
    }

    fn dup_x1(&mut self)
        requires { CanPick DupX1 self.old }
        ensures { ArePicked DupX1 self.old self.new }
    {
        let floor = self.top - 2;
        self.copy(floor + 1, floor + 2);
        self.copy(floor, floor + 1);
        self.copy(floor + 2, floor);
        self.top = floor + 3;
    }

    fn dup_x2(&mut self)
        requires { CanPick DupX2 self.old }
        ensures { ArePicked DupX2 self.old self.new }
    {
        let floor = self.top - 3;
        self.copy(floor + 2, floor + 3);
        self.copy(floor + 1, floor + 2);
        self.copy(floor, floor + 1);
        self.copy(floor + 3, floor);
        self.top = floor + 4;
    }

    fn dup2(&mut self)
        requires { CanPick Dup2 self.old }
        ensures { ArePicked Dup2 self.old self.new }
    {
        let floor = self.top - 2;
        self.copy(floor, floor + 2);
        self.copy(floor + 1, floor + 3);
        self.top = floor + 4;
    }

    fn dup2_x1(&mut self)
        requires { CanPick Dup2X1 self.old }
        ensures { ArePicked Dup2X1 self.old self.new }
    {
        let floor = self.top - 3;
        self.copy(floor + 2, floor + 4);
        self.copy(floor + 1, floor + 3);
        self.copy(floor, floor + 2);
        self.copy(floor + 4, floor + 1);
        self.copy(floor + 3, floor);
        self.top = floor + 5;
    }

    fn dup2_x2(&mut self)
        requires { CanPick Dup2X2 self.old }
        ensures { ArePicked Dup2X2 self.old self.new }
    {
        let floor = self.top - 4;
        self.copy(floor + 3, floor + 5);
        self.copy(floor + 2, floor + 4);
        self.copy(floor + 1, floor + 3);
        self.copy(floor, floor + 2);
        self.copy(floor + 5, floor + 1);
        self.copy(floor + 4, floor);
        self.top = floor + 6;
    }

    fn swap(&mut self)
        requires { CanPick Swap self.old }
        ensures { ArePicked Swap self.old self.new }
    {
        let floor = self.top - 2;
        let word = self.words[floor];
        let kind = self.kinds[floor];
        self.copy(floor + 1, floor);
        self.words[floor + 1] = word;
        self.kinds[floor + 1] = kind;
    }

    /// Rearranges the topmost operands as a stack instruction does.
    #[inline(always)]
    pub fn rearrange(&mut self, r: Rearrangement)
        requires { ShowsForm r self.old }
        ensures reads { Rearranges r self.old self.new }
        ensures same { IsSame self.old self.new }
    {
        match r {
            Rearrangement::Pop => self.pop(),
            Rearrangement::Pop2 => self.pop2(),
            Rearrangement::Dup => self.dup(),
            Rearrangement::DupX1 => self.dup_x1(),
            Rearrangement::DupX2 => self.dup_x2(),
            Rearrangement::Dup2 => self.dup2(),
            Rearrangement::Dup2X1 => self.dup2_x1(),
            Rearrangement::Dup2X2 => self.dup2_x2(),
            Rearrangement::Swap => self.swap(),
        }
    }
}
