//! The files of the tree.
ghost use Rattle.std.specs.Prelude.{◌≡◌};
ghost use Rattle.path_names.specs.PathTable.{file_name};

/// What a file tells or takes, by its name.
#[derive(Clone, Copy, Debug, PartialEq, Eq)]
pub enum FileKind {
    /// `cpus`.
    Cpus,
    /// `cpus_list`.
    CpusList,
    /// `tasks`.
    Tasks,
    /// `schemata`.
    Schemata,
    /// `mode`.
    Mode,
    /// `size`.
    Size,
    /// `llc_occupancy`.
    Occupancy,
    /// `last_cmd_status`.
    LastStatus,
    /// `num_closids`.
    NumClosids,
    /// `cbm_mask`.
    CbmMask,
    /// `min_cbm_bits`.
    MinCbmBits,
    /// `shareable_bits`.
    ShareableBits,
    /// `bit_usage`.
    BitUsage,
    /// `sparse_masks`.
    SparseMasks,
    /// `num_rmids`.
    NumRmids,
    /// `mon_features`.
    MonFeatures,
    /// `max_threshold_occupancy`.
    MaxThreshold,
}

impl FileKind {
    /// The name that such files have (kernel documentation, "Info directory" and "Resource alloc and monitor groups").
    pub fn name(self) -> &'static [u8]
        ensures { result.now ≡ file_name self }
    {
        match self {
            FileKind::Cpus => b"cpus",
            FileKind::CpusList => b"cpus_list",
            FileKind::Tasks => b"tasks",
            FileKind::Schemata => b"schemata",
            FileKind::Mode => b"mode",
            FileKind::Size => b"size",
            FileKind::Occupancy => b"llc_occupancy",
            FileKind::LastStatus => b"last_cmd_status",
            FileKind::NumClosids => b"num_closids",
            FileKind::CbmMask => b"cbm_mask",
            FileKind::MinCbmBits => b"min_cbm_bits",
            FileKind::ShareableBits => b"shareable_bits",
            FileKind::BitUsage => b"bit_usage",
            FileKind::SparseMasks => b"sparse_masks",
            FileKind::NumRmids => b"num_rmids",
            FileKind::MonFeatures => b"mon_features",
            FileKind::MaxThreshold => b"max_threshold_occupancy",
        }
    }
}
