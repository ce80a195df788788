// The settings of a session that are tracked, and their names.
ghost use Rattle.std.specs.Prelude.{◌≡◌, map};
ghost use Rattle.std.specs.Char.{to_ascii_lowercase};
ghost use Rattle.sql_tokens.specs.Words.{same_text};
ghost use Rattle.session_vars.specs.Slots.{is_named, is_other_name, name_of, place_of, slot_named, slot_of_comments, spelt_name, unless_transaction};

use sql_tokens::same_text;

/// A setting of a session that is tracked (MySQL Reference Manual, "Server System Variables"), in the order in which
/// settings are listed.
#[derive(Clone, Copy, PartialEq, Eq)]
pub enum Slot {
    /// What SET NAMES sets: the character sets of client and connection and the connection's collation.
    Names,
    CharacterSetResults,
    CollationConnection,
    Autocommit,
    SqlMode,
    TimeZone,
    TransactionIsolation,
    TransactionReadOnly,
    SqlSafeUpdates,
    ForeignKeyChecks,
    UniqueChecks,
    SqlSelectLimit,
    GroupConcatMaxLen,
    LcTimeNames,
    LcMessages,
    WaitTimeout,
    NetReadTimeout,
    NetWriteTimeout,
    InnodbLockWaitTimeout,
    LockWaitTimeout,
    MaxExecutionTime,
    SqlAutoIsNull,
    CharacterSetServer,
    SqlBigSelects,
    SqlNotes,
    SqlQuoteShowCreate,
    DefaultStorageEngine,
    InteractiveTimeout,
    MaxStatementTime,
    SessionTrackSchema,
    SessionTrackStateChange,
    SessionTrackSystemVariables,
    SessionTrackTransactionInfo,
    SessionTrackGtids,
    TmpTableSize,
    MaxHeapTableSize,
    SortBufferSize,
    JoinBufferSize,
    ReadBufferSize,
    ReadRndBufferSize,
    BulkInsertBufferSize,
    MaxSortLength,
    MaxErrorCount,
    BigTables,
    LowPriorityUpdates,
    SqlWarnings,
    AutoIncrementIncrement,
    AutoIncrementOffset,
    DivPrecisionIncrement,
    DefaultWeekFormat,
    DefaultTmpStorageEngine,
    InnodbStrictMode,
    InnodbTableLocks,
    EqRangeIndexDiveLimit,
    OptimizerSearchDepth,
    OptimizerPruneLevel,
    LongQueryTime,
    UpdatableViewsWithLimit,
    CteMaxRecursionDepth,
    InformationSchemaStatsExpiry,
    BlockEncryptionMode,
    GroupReplicationConsistency,
    WsrepSyncWait,
    IdleTransactionTimeout,
    IdleReadonlyTransactionTimeout,
    IdleWriteTransactionTimeout,
    CheckConstraintChecks,
}

impl Slot {
    /// All of them, in order.
    pub const ALL: [Slot; 67] = [
        Slot::Names,
        Slot::CharacterSetResults,
        Slot::CollationConnection,
        Slot::Autocommit,
        Slot::SqlMode,
        Slot::TimeZone,
        Slot::TransactionIsolation,
        Slot::TransactionReadOnly,
        Slot::SqlSafeUpdates,
        Slot::ForeignKeyChecks,
        Slot::UniqueChecks,
        Slot::SqlSelectLimit,
        Slot::GroupConcatMaxLen,
        Slot::LcTimeNames,
        Slot::LcMessages,
        Slot::WaitTimeout,
        Slot::NetReadTimeout,
        Slot::NetWriteTimeout,
        Slot::InnodbLockWaitTimeout,
        Slot::LockWaitTimeout,
        Slot::MaxExecutionTime,
        Slot::SqlAutoIsNull,
        Slot::CharacterSetServer,
        Slot::SqlBigSelects,
        Slot::SqlNotes,
        Slot::SqlQuoteShowCreate,
        Slot::DefaultStorageEngine,
        Slot::InteractiveTimeout,
        Slot::MaxStatementTime,
        Slot::SessionTrackSchema,
        Slot::SessionTrackStateChange,
        Slot::SessionTrackSystemVariables,
        Slot::SessionTrackTransactionInfo,
        Slot::SessionTrackGtids,
        Slot::TmpTableSize,
        Slot::MaxHeapTableSize,
        Slot::SortBufferSize,
        Slot::JoinBufferSize,
        Slot::ReadBufferSize,
        Slot::ReadRndBufferSize,
        Slot::BulkInsertBufferSize,
        Slot::MaxSortLength,
        Slot::MaxErrorCount,
        Slot::BigTables,
        Slot::LowPriorityUpdates,
        Slot::SqlWarnings,
        Slot::AutoIncrementIncrement,
        Slot::AutoIncrementOffset,
        Slot::DivPrecisionIncrement,
        Slot::DefaultWeekFormat,
        Slot::DefaultTmpStorageEngine,
        Slot::InnodbStrictMode,
        Slot::InnodbTableLocks,
        Slot::EqRangeIndexDiveLimit,
        Slot::OptimizerSearchDepth,
        Slot::OptimizerPruneLevel,
        Slot::LongQueryTime,
        Slot::UpdatableViewsWithLimit,
        Slot::CteMaxRecursionDepth,
        Slot::InformationSchemaStatsExpiry,
        Slot::BlockEncryptionMode,
        Slot::GroupReplicationConsistency,
        Slot::WsrepSyncWait,
        Slot::IdleTransactionTimeout,
        Slot::IdleReadonlyTransactionTimeout,
        Slot::IdleWriteTransactionTimeout,
        Slot::CheckConstraintChecks,
    ];

    /// The name of the system variable. Takes no memory.
    pub fn name(self) -> &'static [u8]
        ensures { result.now ≡ name_of self }
    {
        match self {
            Slot::Names => b"names",
            Slot::CharacterSetResults => b"character_set_results",
            Slot::CollationConnection => b"collation_connection",
            Slot::Autocommit => b"autocommit",
            Slot::SqlMode => b"sql_mode",
            Slot::TimeZone => b"time_zone",
            Slot::TransactionIsolation => b"transaction_isolation",
            Slot::TransactionReadOnly => b"transaction_read_only",
            Slot::SqlSafeUpdates => b"sql_safe_updates",
            Slot::ForeignKeyChecks => b"foreign_key_checks",
            Slot::UniqueChecks => b"unique_checks",
            Slot::SqlSelectLimit => b"sql_select_limit",
            Slot::GroupConcatMaxLen => b"group_concat_max_len",
            Slot::LcTimeNames => b"lc_time_names",
            Slot::LcMessages => b"lc_messages",
            Slot::WaitTimeout => b"wait_timeout",
            Slot::NetReadTimeout => b"net_read_timeout",
            Slot::NetWriteTimeout => b"net_write_timeout",
            Slot::InnodbLockWaitTimeout => b"innodb_lock_wait_timeout",
            Slot::LockWaitTimeout => b"lock_wait_timeout",
            Slot::MaxExecutionTime => b"max_execution_time",
            Slot::SqlAutoIsNull => b"sql_auto_is_null",
            Slot::CharacterSetServer => b"character_set_server",
            Slot::SqlBigSelects => b"sql_big_selects",
            Slot::SqlNotes => b"sql_notes",
            Slot::SqlQuoteShowCreate => b"sql_quote_show_create",
            Slot::DefaultStorageEngine => b"default_storage_engine",
            Slot::InteractiveTimeout => b"interactive_timeout",
            Slot::MaxStatementTime => b"max_statement_time",
            Slot::SessionTrackSchema => b"session_track_schema",
            Slot::SessionTrackStateChange => b"session_track_state_change",
            Slot::SessionTrackSystemVariables => b"session_track_system_variables",
            Slot::SessionTrackTransactionInfo => b"session_track_transaction_info",
            Slot::SessionTrackGtids => b"session_track_gtids",
            Slot::TmpTableSize => b"tmp_table_size",
            Slot::MaxHeapTableSize => b"max_heap_table_size",
            Slot::SortBufferSize => b"sort_buffer_size",
            Slot::JoinBufferSize => b"join_buffer_size",
            Slot::ReadBufferSize => b"read_buffer_size",
            Slot::ReadRndBufferSize => b"read_rnd_buffer_size",
            Slot::BulkInsertBufferSize => b"bulk_insert_buffer_size",
            Slot::MaxSortLength => b"max_sort_length",
            Slot::MaxErrorCount => b"max_error_count",
            Slot::BigTables => b"big_tables",
            Slot::LowPriorityUpdates => b"low_priority_updates",
            Slot::SqlWarnings => b"sql_warnings",
            Slot::AutoIncrementIncrement => b"auto_increment_increment",
            Slot::AutoIncrementOffset => b"auto_increment_offset",
            Slot::DivPrecisionIncrement => b"div_precision_increment",
            Slot::DefaultWeekFormat => b"default_week_format",
            Slot::DefaultTmpStorageEngine => b"default_tmp_storage_engine",
            Slot::InnodbStrictMode => b"innodb_strict_mode",
            Slot::InnodbTableLocks => b"innodb_table_locks",
            Slot::EqRangeIndexDiveLimit => b"eq_range_index_dive_limit",
            Slot::OptimizerSearchDepth => b"optimizer_search_depth",
            Slot::OptimizerPruneLevel => b"optimizer_prune_level",
            Slot::LongQueryTime => b"long_query_time",
            Slot::UpdatableViewsWithLimit => b"updatable_views_with_limit",
            Slot::CteMaxRecursionDepth => b"cte_max_recursion_depth",
            Slot::InformationSchemaStatsExpiry => b"information_schema_stats_expiry",
            Slot::BlockEncryptionMode => b"block_encryption_mode",
            Slot::GroupReplicationConsistency => b"group_replication_consistency",
            Slot::WsrepSyncWait => b"wsrep_sync_wait",
            Slot::IdleTransactionTimeout => b"idle_transaction_timeout",
            Slot::IdleReadonlyTransactionTimeout => b"idle_readonly_transaction_timeout",
            Slot::IdleWriteTransactionTimeout => b"idle_write_transaction_timeout",
            Slot::CheckConstraintChecks => b"check_constraint_checks",
        }
    }

    // The place of a setting among all.
    pub(crate) fn place(self) -> usize
        ensures { result ≡ place_of self }
    {
        self as usize
    }

    /// The setting that a name assigns, in any ASCII case. No assignment sets `Names`, the first. Takes no memory.
    pub fn named(name: &[u8]) -> Option<Slot>
        ensures { result ≡ slot_named name.now }
    {
        Slot::ALL[1..]
            .iter()
            .copied()
            .find(|slot| is_named(name, *slot))
    }

    // The name by which each server knows it: MariaDB executes the first of two comments, and MySQL the second (MariaDB, "Comment
    // Syntax").
    pub(crate) fn spelt_name(self) -> &'static [u8]
        ensures { result.now ≡ spelt_name self }
    {
        match self {
            Slot::TransactionIsolation => b"/*M!tx_isolation*/ /*!50720 transaction_isolation*/",
            Slot::TransactionReadOnly => b"/*M!tx_read_only*/ /*!50720 transaction_read_only*/",
            _ => self.name(),
        }
    }

    // The setting that two comments name.
    #[tactic(auto, unfolding(crate::specs::Slots::slot_of_comments))]
    pub(crate) fn of_comments(first: &[u8], second: &[u8]) -> Option<Slot>
        ensures { result ≡ slot_of_comments first.now second.now }
    {
        if first == b"/*M!tx_isolation*/".as_slice()
            && second == b"/*!50720 transaction_isolation*/".as_slice()
        {
            Some(Slot::TransactionIsolation)
        } else if first == b"/*M!tx_read_only*/".as_slice()
            && second == b"/*!50720 transaction_read_only*/".as_slice()
        {
            Some(Slot::TransactionReadOnly)
        } else {
            None
        }
    }

    // None for the two that behind `@@` alone set the next transaction and not the session.
    pub(crate) fn unless_transaction(self) -> Option<Slot>
        ensures { result ≡ unless_transaction self }
    {
        match self {
            Slot::TransactionIsolation | Slot::TransactionReadOnly => None,
            _ => Some(self),
        }
    }
}

// Whether two names are one in any case. Mostly they are written alike, which takes less to see.
#[tactic(auto, using(crate::proofs::Alike::alike_or_same))]
fn is_alike(name: &[u8], other: &[u8]) -> bool
    ensures { result ≡ same_text name.now other.now }
{
    name == other || same_text(name, other)
}

// Whether it is another name of it.
fn is_other_name(name: &[u8], slot: Slot) -> bool
    ensures { result ≡ is_other_name (map to_ascii_lowercase name.now) slot }
{
    match slot {
        Slot::TransactionIsolation => same_text(name, b"tx_isolation"),
        Slot::TransactionReadOnly => same_text(name, b"tx_read_only"),
        Slot::CharacterSetServer => same_text(name, b"collation_server"),
        _ => false,
    }
}

// Whether it is a name of it.
fn is_named(name: &[u8], slot: Slot) -> bool
    ensures { result ≡ is_named (map to_ascii_lowercase name.now) slot }
{
    is_alike(name, slot.name()) || is_other_name(name, slot)
}
