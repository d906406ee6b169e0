//! Lookup of constants by index and tag.

ghost use Rattle.std.specs.Prelude.{◌≡◌, option_map, is_some};
ghost use Rattle.std.specs.Option.{option_copied};
ghost use Rattle.constpool.specs.Lookup.{constant_at, utf8_at, integer_at, long_at, class_at, class_index_at, pair_at, pair_index_at, as_field, as_method, as_interface_method, member_of, field_at, method_at, interface_method_at, names_member, constant_refers};

use crate::{Constant, Pool};

/// A reference of the pool to a field or a method: the names of the class and the member, and the descriptor (JVMS §4.4.2).
#[derive(Clone, Copy)]
pub struct MemberRef<'a> {
    pub class: &'a [u8],
    pub name: &'a [u8],
    pub descriptor: &'a [u8],
}

impl Pool {
    /// Returns the bytes of the `Utf8` constant at an index (JVMS §4.4.7).
    #[tactic(auto, unfolding(crate::specs::Lookup::utf8_at))]
    pub fn utf8(&self, i: u16) -> Option<&[u8]>
        ensures { option_copied result ≡ utf8_at self.now i }
    {
        match self.constant(i) {
            Some(Constant::Utf8(text)) => Some(text.as_slice()),
            _ => None,
        }
    }

    /// Returns the value of the `Integer` constant at an index (JVMS §4.4.4).
    #[tactic(auto, unfolding(crate::specs::Lookup::integer_at))]
    pub fn int(&self, i: u16) -> Option<i32>
        ensures { result ≡ integer_at self.now i }
    {
        match self.constant(i) {
            Some(Constant::Integer(value)) => Some(*value),
            _ => None,
        }
    }

    /// Returns the value of the `Long` constant at an index (JVMS §4.4.5).
    #[tactic(auto, unfolding(crate::specs::Lookup::long_at))]
    pub fn long(&self, i: u16) -> Option<i64>
        ensures { result ≡ long_at self.now i }
    {
        match self.constant(i) {
            Some(Constant::Long(value)) => Some(*value),
            _ => None,
        }
    }

    fn class_index(&self, i: u16) -> Option<u16>
        ensures { result ≡ class_index_at self.now i }
    {
        match self.constant(i) {
            Some(Constant::Class(name)) => Some(*name),
            _ => None,
        }
    }

    /// Returns whether the constant at an index is a `Class`: a class, an interface or an array type (JVMS §4.4.1).
    pub fn is_class(&self, i: u16) -> bool
        ensures { result ≡ is_some (class_index_at self.now i) }
    {
        self.class_index(i).is_some()
    }

    /// Returns the name of the `Class` constant at an index (JVMS §4.4.1).
    #[tactic(auto, unfolding(crate::specs::Lookup::class_at))]
    pub fn class(&self, i: u16) -> Option<&[u8]>
        ensures { option_copied result ≡ class_at self.now i }
    {
        self.utf8(self.class_index(i)?)
    }

    fn pair_index(&self, i: u16) -> Option<(u16, u16)>
        ensures { result ≡ pair_index_at self.now i }
    {
        match self.constant(i) {
            Some(Constant::NameAndType(name, descriptor)) => Some((*name, *descriptor)),
            _ => None,
        }
    }

    #[tactic(auto, unfolding(crate::specs::Lookup::pair_at))]
    fn pair(&self, i: u16) -> Option<(&[u8], &[u8])>
        ensures { option_map (λ p. (p.0.now, p.1.now)) result ≡ pair_at self.now i }
    {
        let (name, descriptor) = self.pair_index(i)?;
        Some((self.utf8(name)?, self.utf8(descriptor)?))
    }

    #[tactic(auto, unfolding(crate::specs::Lookup::member_of))]
    fn member(&self, class: u16, pair: u16) -> Option<MemberRef<'_>>
        ensures { option_map (λ m. record { class = m.class.now; name = m.name.now; descriptor = m.descriptor.now }) result ≡ member_of self.now (class, pair) }
    {
        let class = self.class(class)?;
        let (name, descriptor) = self.pair(pair)?;
        Some(MemberRef {
            class,
            name,
            descriptor,
        })
    }

    /// Returns the names and the descriptor of the `Fieldref` constant at an index (JVMS §4.4.2).
    #[tactic(auto, unfolding(crate::specs::Lookup::field_at))]
    pub fn field(&self, i: u16) -> Option<MemberRef<'_>>
        ensures { option_map (λ m. record { class = m.class.now; name = m.name.now; descriptor = m.descriptor.now }) result ≡ field_at self.now i }
    {
        match self.constant(i) {
            Some(Constant::Fieldref(class, pair)) => self.member(*class, *pair),
            _ => None,
        }
    }

    /// Returns the names and the descriptor of the `Methodref` constant at an index (JVMS §4.4.2).
    #[tactic(auto, unfolding(crate::specs::Lookup::method_at))]
    pub fn method(&self, i: u16) -> Option<MemberRef<'_>>
        ensures { option_map (λ m. record { class = m.class.now; name = m.name.now; descriptor = m.descriptor.now }) result ≡ method_at self.now i }
    {
        match self.constant(i) {
            Some(Constant::Methodref(class, pair)) => self.member(*class, *pair),
            _ => None,
        }
    }

    /// Returns the names and the descriptor of the `InterfaceMethodref` constant at an index (JVMS §4.4.2).
    #[tactic(auto, unfolding(crate::specs::Lookup::interface_method_at))]
    pub fn interface_method(&self, i: u16) -> Option<MemberRef<'_>>
        ensures { option_map (λ m. record { class = m.class.now; name = m.name.now; descriptor = m.descriptor.now }) result ≡ interface_method_at self.now i }
    {
        match self.constant(i) {
            Some(Constant::InterfaceMethodref(class, pair)) => self.member(*class, *pair),
            _ => None,
        }
    }

    fn is_member(&self, i: u16) -> bool
        ensures { result ≡ names_member (constant_at self.now i) }
    {
        matches!(
            self.constant(i),
            Some(
                Constant::Fieldref(..) | Constant::Methodref(..) | Constant::InterfaceMethodref(..)
            )
        )
    }

    /// Returns whether each pool index in a constant is that of a constant with the required tag.
    #[tactic(auto, unfolding(crate::specs::Lookup::constant_refers))]
    pub(crate) fn constant_refers(&self, constant: &Constant) -> bool
        ensures { result ≡ constant_refers self.now constant.now }
    {
        match constant {
            Constant::Class(text) | Constant::String(text) | Constant::MethodType(text) => {
                self.utf8(*text).is_some()
            }
            Constant::NameAndType(name, descriptor) => {
                self.utf8(*name).is_some() && self.utf8(*descriptor).is_some()
            }
            Constant::Fieldref(class, pair)
            | Constant::Methodref(class, pair)
            | Constant::InterfaceMethodref(class, pair) => {
                self.is_class(*class) && self.pair_index(*pair).is_some()
            }
            Constant::MethodHandle(_, member) => self.is_member(*member),
            Constant::InvokeDynamic(_, pair) => self.pair_index(*pair).is_some(),
            _ => true,
        }
    }
}
