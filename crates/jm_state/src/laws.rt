//! A law of popped arguments, the contract of a function that does nothing.

ghost use Rattle.std.specs.Prelude.{◌≡◌, List, map};
ghost use Rattle.jm_program.specs.declared.descriptor.FieldType.{FieldType};
ghost use Rattle.jm_values.specs.declared.value.Value.{Value};
ghost use Rattle.jm_world.specs.Here.{with_arguments};
ghost use Rattle.jm_world.specs.Next.{Next};
ghost use Rattle.jm_world.specs.Types.{operand_of};
ghost use Rattle.jm_state.specs.Arguments.{popped, with_popped};

/// The model's arguments of a call are the operands that are popped for the parameters' types.
pub fn arguments_are_popped()
    ensures { (types : List FieldType) (arguments s : List Value) (go : List Value → List Value → Next)
        → with_arguments types arguments s go ≡ with_popped (popped (map operand_of types) arguments s) go }
{}
