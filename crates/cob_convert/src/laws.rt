// Laws of whole runs, each proved as the contract of a function that only calls the laws below it.
ghost use Rattle.cob_convert.specs.Unique.{ConversionIsOne};

/// What is written for bytes, what is answered and what is left of them is determined: the records that they are
/// cut into, what each becomes, and the end.
pub fn conversion_is_one()
    ensures { ConversionIsOne }
{
    cob_records::next_is_one();
    cob_convert_record::conversions_are_decided();
}
