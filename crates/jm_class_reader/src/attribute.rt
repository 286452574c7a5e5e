// What every attribute begins with: the index of its name, its length and its bytes (JVMS 4.7).

ghost use Rattle.jm_bytes.specs.Reading.{TakesAs};
ghost use Rattle.jm_class_format.specs.CodeAttribute.{attribute_name, skipped_info};

use crate::named_code::text_at;
use jm_bytes::Reader;
use jm_class_format::ReadFault;
use jm_pool::Pool;

/// The code units of the text that the next index names; where the bytes end too early, the fault
/// given.
#[tactic(auto, unfolding(jm_class_format::specs::CodeAttribute::attribute_name))]
pub fn attribute_name<'p>(
    cut: ReadFault,
    pool: &'p Pool,
    reader: &mut Reader<'_>,
) -> Result<&'p [u16], ReadFault>
    ensures { TakesAs (λ units. units.now) result reader.new ((attribute_name cut pool.now).read reader.old) }
{
    let Ok(index) = reader.u2() else {
        return Err(cut);
    };
    let text = text_at(pool, index)?;
    Ok(text.units)
}

/// The bytes of an attribute, after their length.
#[tactic(auto, unfolding(jm_class_format::specs::CodeAttribute::skipped_info))]
pub fn info<'a>(cut: ReadFault, reader: &mut Reader<'a>) -> Result<&'a [u8], ReadFault>
    ensures { TakesAs (λ bytes. bytes.now) result reader.new ((skipped_info cut).read reader.old) }
{
    let Ok(length) = reader.u4() else {
        return Err(cut);
    };
    let Ok(bytes) = reader.take(length as usize) else {
        return Err(cut);
    };
    Ok(bytes)
}
