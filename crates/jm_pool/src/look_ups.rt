// What an index of a constant pool names (JVMS 4.4).

ghost use Rattle.std.specs.Prelude.{◌≡◌, ℤ, ℕ, List, IfSome};
ghost use Rattle.std.specs.Option.{option_copied, option_map};
ghost use Rattle.jm_class_format.specs.PoolLookups.{when_some, class_of, string_of, field_of, method_of, interface_method_of, name_and_type_of, entry_at, text_at, integer_at, long_at, class_at, string_at, name_and_type_at, member_at, field_at, method_at, interface_method_at};
ghost use Rattle.jm_pool.specs.Texts.{Stands, AllStand};

use crate::pool::Pool;
use jm_class_format::Entry;

/// A text of a pool (JVMS 4.4.7): its index, and the code units that stand there.
#[derive(Clone, Copy)]
pub struct Text<'a> {
    pub index: u16,
    pub units: &'a [u16],
}

/// A name and a descriptor (JVMS 4.4.6).
#[derive(Clone, Copy)]
pub struct NameAndType<'a> {
    pub name: Text<'a>,
    pub descriptor: Text<'a>,
}

/// A class or an interface, and its member's name and descriptor (JVMS 4.4.2).
#[derive(Clone, Copy)]
pub struct Member<'a> {
    pub class: Text<'a>,
    pub name: Text<'a>,
    pub descriptor: Text<'a>,
}

impl Pool {
    /// The entry that an index names, from 1 on.
    #[tactic(auto, unfolding(jm_class_format::specs::PoolLookups::entry_at))]
    pub fn entry(&self, index: u16) -> Option<&Entry>
        ensures { option_copied result ≡ entry_at self.now index }
    {
        if index == 0 {
            return None;
        }
        self.entries().get(index as usize - 1)
    }

    /// The code units of the text that an index names (JVMS 4.4.7).
    #[tactic(auto, unfolding(jm_class_format::specs::PoolLookups::text_at))]
    pub fn text(&self, index: u16) -> Option<&[u16]>
        ensures { option_map (λ units. units.now) result ≡ text_at self.now index }
    {
        match self.entry(index) {
            Some(Entry::Utf8(units)) => Some(units.as_slice()),
            _ => None,
        }
    }

    /// The number of the Integer that an index names (JVMS 4.4.4).
    #[tactic(auto, unfolding(jm_class_format::specs::PoolLookups::integer_at))]
    pub fn integer(&self, index: u16) -> Option<i32>
        ensures { result ≡ integer_at self.now index }
    {
        match self.entry(index) {
            Some(Entry::Integer(number)) => Some(*number),
            _ => None,
        }
    }

    /// The number of the Long that an index names (JVMS 4.4.5).
    #[tactic(auto, unfolding(jm_class_format::specs::PoolLookups::long_at))]
    pub fn long(&self, index: u16) -> Option<i64>
        ensures { result ≡ long_at self.now index }
    {
        match self.entry(index) {
            Some(Entry::Long(number)) => Some(*number),
            _ => None,
        }
    }

    // The text at an index, with the index.
    fn text_with_index(&self, index: u16) -> Option<Text<'_>>
        ensures units { option_map (λ text. text.units.now) result ≡ text_at self.now index }
        ensures stands { IfSome result (Stands self.now) }
    {
        let units = self.text(index)?;
        Some(Text { index, units })
    }

    // The index of a class's name.
    fn class_name(&self, index: u16) -> Option<u16>
        ensures { result ≡ when_some (entry_at self.now index) class_of }
    {
        match self.entry(index) {
            Some(Entry::Class(name)) => Some(*name),
            _ => None,
        }
    }

    /// The name of the class that an index names, or its descriptor where it is an array type
    /// (JVMS 4.4.1).
    #[tactic(auto, unfolding(jm_class_format::specs::PoolLookups::class_at))]
    pub fn class(&self, index: u16) -> Option<Text<'_>>
        ensures units { option_map (λ text. text.units.now) result ≡ class_at self.now index }
        ensures stands { IfSome result (Stands self.now) }
    {
        let name = self.class_name(index)?;
        let text = self.text_with_index(name)?;
        Some(text)
    }

    // The index of a string's text.
    fn string_text(&self, index: u16) -> Option<u16>
        ensures { result ≡ when_some (entry_at self.now index) string_of }
    {
        match self.entry(index) {
            Some(Entry::String(text)) => Some(*text),
            _ => None,
        }
    }

    /// The code units of the string that an index names (JVMS 4.4.3).
    #[tactic(auto, unfolding(jm_class_format::specs::PoolLookups::string_at))]
    pub fn string(&self, index: u16) -> Option<&[u16]>
        ensures { option_map (λ units. units.now) result ≡ string_at self.now index }
    {
        let text = self.string_text(index)?;
        let text = self.text(text)?;
        Some(text)
    }

    // The indexes of a name and of its descriptor.
    fn name_and_type_indexes(&self, index: u16) -> Option<(u16, u16)>
        ensures { result ≡ when_some (entry_at self.now index) name_and_type_of }
    {
        match self.entry(index) {
            Some(Entry::NameAndType(name, descriptor)) => Some((*name, *descriptor)),
            _ => None,
        }
    }

    /// The name and the descriptor of the NameAndType that an index names (JVMS 4.4.6).
    #[tactic(auto, unfolding(jm_class_format::specs::PoolLookups::name_and_type_at))]
    pub fn name_and_type(&self, index: u16) -> Option<NameAndType<'_>>
        ensures units { option_map (λ n. (n.name.units.now, n.descriptor.units.now)) result ≡ name_and_type_at self.now index }
        ensures stand { IfSome result (λ n. Stands self.now n.name × Stands self.now n.descriptor) }
    {
        let (name, descriptor) = self.name_and_type_indexes(index)?;
        let name = self.text_with_index(name)?;
        let descriptor = self.text_with_index(descriptor)?;
        Some(NameAndType { name, descriptor })
    }

    // A member of a class, and of a name and type.
    #[tactic(auto, unfolding(jm_class_format::specs::PoolLookups::member_at))]
    fn member(&self, class: u16, name_and_type: u16) -> Option<Member<'_>>
        ensures units { option_map (λ m. (m.class.units.now, m.name.units.now, m.descriptor.units.now)) result ≡ member_at self.now class name_and_type }
        ensures stand { IfSome result (AllStand self.now) }
    {
        let class = self.class(class)?;
        let NameAndType { name, descriptor } = self.name_and_type(name_and_type)?;
        Some(Member {
            class,
            name,
            descriptor,
        })
    }

    // The indexes of a field's class, and of its name and type.
    fn field_indexes(&self, index: u16) -> Option<(u16, u16)>
        ensures { result ≡ when_some (entry_at self.now index) field_of }
    {
        match self.entry(index) {
            Some(Entry::Fieldref(class, name_and_type)) => Some((*class, *name_and_type)),
            _ => None,
        }
    }

    /// The class, the name and the descriptor of the field that an index names (JVMS 4.4.2).
    #[tactic(auto, unfolding(jm_class_format::specs::PoolLookups::field_at))]
    pub fn field(&self, index: u16) -> Option<Member<'_>>
        ensures units { option_map (λ m. (m.class.units.now, m.name.units.now, m.descriptor.units.now)) result ≡ field_at self.now index }
        ensures stand { IfSome result (AllStand self.now) }
    {
        let (class, name_and_type) = self.field_indexes(index)?;
        self.member(class, name_and_type)
    }

    // The indexes of a method's class, and of its name and type.
    fn method_indexes(&self, index: u16) -> Option<(u16, u16)>
        ensures { result ≡ when_some (entry_at self.now index) method_of }
    {
        match self.entry(index) {
            Some(Entry::Methodref(class, name_and_type)) => Some((*class, *name_and_type)),
            _ => None,
        }
    }

    /// The class, the name and the descriptor of the method of a class that an index names
    /// (JVMS 4.4.2).
    #[tactic(auto, unfolding(jm_class_format::specs::PoolLookups::method_at))]
    pub fn method(&self, index: u16) -> Option<Member<'_>>
        ensures units { option_map (λ m. (m.class.units.now, m.name.units.now, m.descriptor.units.now)) result ≡ method_at self.now index }
        ensures stand { IfSome result (AllStand self.now) }
    {
        let (class, name_and_type) = self.method_indexes(index)?;
        self.member(class, name_and_type)
    }

    // The indexes of an interface method's interface, and of its name and type.
    fn interface_method_indexes(&self, index: u16) -> Option<(u16, u16)>
        ensures { result ≡ when_some (entry_at self.now index) interface_method_of }
    {
        match self.entry(index) {
            Some(Entry::InterfaceMethodref(interface, name_and_type)) => {
                Some((*interface, *name_and_type))
            }
            _ => None,
        }
    }

    /// The interface, the name and the descriptor of the method of an interface that an index
    /// names (JVMS 4.4.2).
    #[tactic(auto, unfolding(jm_class_format::specs::PoolLookups::interface_method_at))]
    pub fn interface_method(&self, index: u16) -> Option<Member<'_>>
        ensures units { option_map (λ m. (m.class.units.now, m.name.units.now, m.descriptor.units.now)) result ≡ interface_method_at self.now index }
        ensures stand { IfSome result (AllStand self.now) }
    {
        let (interface, name_and_type) = self.interface_method_indexes(index)?;
        self.member(interface, name_and_type)
    }
}
