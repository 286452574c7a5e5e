// The literals of classes as they are gathered (JVMS 4.4.3, 5.1).

ghost use Rattle.std.specs.Prelude.{◌≡◌, OnOk};
ghost use Rattle.std.specs.List.{flat_map};
ghost use Rattle.jm_world.specs.Loading.{text_of, texts_of_class, texts_of_field, texts_of_instruction, texts_of_method};
ghost use Rattle.jm_tables.specs.Texts.{HasNumbers, with_text, with_texts};

use jm_program::{AccessFlags, ClassParts, Constant, Field, Instr, Method, Sequence, Shared};
use std::alloc::AllocError;
use std::collections::BTreeMap;

/// The texts so far, in the order of their first uses, and their numbers.
#[derive(Drop)]
pub struct Gathering<'a> {
    pub texts: Vec<Shared<Sequence<u16>>>,
    pub numbers: BTreeMap<&'a [u16], u32>,
}

impl<'a> Gathering<'a> {
    // A text, unless it is there already.
    fn add(&mut self, text: &'a Shared<Sequence<u16>>) -> Result<(), AllocError>
        requires { HasNumbers self.old.numbers self.old.texts.items }
        ensures texts { OnOk result (self.new.texts.items ≡ with_text self.old.texts.items text.now) }
        ensures numbers { OnOk result (HasNumbers self.new.numbers self.new.texts.items) }
    {
        let units = text.as_slice();
        if self.numbers.contains_key(&units) {
            return Ok(());
        }
        let Ok(number) = u32::try_from(self.texts.len()) else {
            return Err(AllocError);
        };
        self.texts.push(text.share()?)?;
        self.numbers.insert(units, number)?;
        Ok(())
    }

    fn add_constant(&mut self, constant: &'a Constant) -> Result<(), AllocError>
        requires { HasNumbers self.old.numbers self.old.texts.items }
        ensures texts { OnOk result (self.new.texts.items ≡ with_texts self.old.texts.items (text_of constant.now)) }
        ensures numbers { OnOk result (HasNumbers self.new.numbers self.new.texts.items) }
    {
        match constant {
            Constant::String(text) => self.add(text),
            Constant::Int(_) | Constant::Long(_) => Ok(()),
        }
    }

    // The constant that a static field begins with.
    fn add_field(&mut self, field: &'a Field) -> Result<(), AllocError>
        requires { HasNumbers self.old.numbers self.old.texts.items }
        ensures texts { OnOk result (self.new.texts.items ≡ with_texts self.old.texts.items (texts_of_field field.now)) }
        ensures numbers { OnOk result (HasNumbers self.new.numbers self.new.texts.items) }
    {
        match &field.constant {
            Some(constant) if field.flags.has(AccessFlags::STATIC) => self.add_constant(constant),
            _ => Ok(()),
        }
    }

    fn add_instruction(&mut self, instruction: &'a Instr) -> Result<(), AllocError>
        requires { HasNumbers self.old.numbers self.old.texts.items }
        ensures texts { OnOk result (self.new.texts.items ≡ with_texts self.old.texts.items (texts_of_instruction instruction.now)) }
        ensures numbers { OnOk result (HasNumbers self.new.numbers self.new.texts.items) }
    {
        match instruction {
            Instr::Constant(constant) => self.add_constant(constant),
            _ => Ok(()),
        }
    }

    fn add_code(&mut self, instructions: &'a [Instr]) -> Result<(), AllocError>
        requires { HasNumbers self.old.numbers self.old.texts.items }
        ensures texts { OnOk result (self.new.texts.items ≡ with_texts self.old.texts.items (flat_map texts_of_instruction instructions.now)) }
        ensures numbers { OnOk result (HasNumbers self.new.numbers self.new.texts.items) }
    {
        for instruction in instructions {
            self.add_instruction(instruction)?;
        }
        Ok(())
    }

    fn add_method(&mut self, method: &'a Method) -> Result<(), AllocError>
        requires { HasNumbers self.old.numbers self.old.texts.items }
        ensures texts { OnOk result (self.new.texts.items ≡ with_texts self.old.texts.items (texts_of_method method.now)) }
        ensures numbers { OnOk result (HasNumbers self.new.numbers self.new.texts.items) }
    {
        match &method.code {
            Some(code) => self.add_code(code.instructions.as_slice()),
            None => Ok(()),
        }
    }

    fn add_fields(&mut self, fields: &'a [Field]) -> Result<(), AllocError>
        requires { HasNumbers self.old.numbers self.old.texts.items }
        ensures texts { OnOk result (self.new.texts.items ≡ with_texts self.old.texts.items (flat_map texts_of_field fields.now)) }
        ensures numbers { OnOk result (HasNumbers self.new.numbers self.new.texts.items) }
    {
        for field in fields {
            self.add_field(field)?;
        }
        Ok(())
    }

    fn add_methods(&mut self, methods: &'a [Method]) -> Result<(), AllocError>
        requires { HasNumbers self.old.numbers self.old.texts.items }
        ensures texts { OnOk result (self.new.texts.items ≡ with_texts self.old.texts.items (flat_map texts_of_method methods.now)) }
        ensures numbers { OnOk result (HasNumbers self.new.numbers self.new.texts.items) }
    {
        for method in methods {
            self.add_method(method)?;
        }
        Ok(())
    }

    /// The literals of a class: those of its constant fields, and then those of its methods.
    pub fn add_class(&mut self, class: &'a ClassParts) -> Result<(), AllocError>
        requires { HasNumbers self.old.numbers self.old.texts.items }
        ensures texts { OnOk result (self.new.texts.items ≡ with_texts self.old.texts.items (texts_of_class class.now)) }
        ensures numbers { OnOk result (HasNumbers self.new.numbers self.new.texts.items) }
    {
        self.add_fields(class.fields.as_slice())?;
        self.add_methods(class.methods.as_slice())
    }
}
