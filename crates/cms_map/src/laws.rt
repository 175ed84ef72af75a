// What holds of every map.
ghost use Rattle.cms_map.specs.Bits.{ReadsBack, FreeAreUnused, FreeAscend};

/// The bytes of a map are read as the same map; its free blocks are those that are not in use, in ascending order.
pub fn map_laws()
    ensures reads_back { ReadsBack }
    ensures unused { FreeAreUnused }
    ensures ascend { FreeAscend }
{}
