//! Texts that are settled one after the other: what stands where some of them were written does not tell in which order.
