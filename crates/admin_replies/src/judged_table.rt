// The parts of the table of what is wrong, of the premises, and of what is allowed at most.
use crate::metric::{LimitMetric, Metric, NoticeMetric};
use crate::table::Row;

/// What is wrong.
pub(crate) const PROBLEMS: [Row; operator_view::PROBLEMS] = [
    Row {
        head: "# HELP lambda_broker_problem 1 where this is wrong, else 0.\n# TYPE lambda_broker_problem gauge\n",
        name: "lambda_broker_problem{reason=\"disk_hangs\"}",
        metric: Metric::Problem(0),
    },
    Row {
        head: "",
        name: "lambda_broker_problem{reason=\"clock_is_behind\"}",
        metric: Metric::Problem(1),
    },
    Row {
        head: "",
        name: "lambda_broker_problem{reason=\"clock_is_held_back\"}",
        metric: Metric::Problem(2),
    },
    Row {
        head: "",
        name: "lambda_broker_problem{reason=\"events_expired_by_a_jump\"}",
        metric: Metric::Problem(3),
    },
    Row {
        head: "",
        name: "lambda_broker_problem{reason=\"nobody_polls\"}",
        metric: Metric::Problem(4),
    },
    Row {
        head: "",
        name: "lambda_broker_problem{reason=\"environment_hangs\"}",
        metric: Metric::Problem(5),
    },
    Row {
        head: "",
        name: "lambda_broker_problem{reason=\"nothing_ends\"}",
        metric: Metric::Problem(6),
    },
    Row {
        head: "",
        name: "lambda_broker_problem{reason=\"most_attempts_fail\"}",
        metric: Metric::Problem(7),
    },
    Row {
        head: "",
        name: "lambda_broker_problem{reason=\"commits_are_slow\"}",
        metric: Metric::Problem(8),
    },
    Row {
        head: "",
        name: "lambda_broker_problem{reason=\"all_busy\"}",
        metric: Metric::Problem(9),
    },
    Row {
        head: "",
        name: "lambda_broker_problem{reason=\"backlog_grows\"}",
        metric: Metric::Problem(10),
    },
    Row {
        head: "",
        name: "lambda_broker_problem{reason=\"records_not_collected\"}",
        metric: Metric::Problem(11),
    },
    Row {
        head: "",
        name: "lambda_broker_problem{reason=\"table_full\"}",
        metric: Metric::Problem(12),
    },
    Row {
        head: "",
        name: "lambda_broker_problem{reason=\"table_nearly_full\"}",
        metric: Metric::Problem(13),
    },
    Row {
        head: "",
        name: "lambda_broker_problem{reason=\"callers_are_refused\"}",
        metric: Metric::Problem(14),
    },
    Row {
        head: "",
        name: "lambda_broker_problem{reason=\"events_expire\"}",
        metric: Metric::Problem(15),
    },
];

/// What is wrong where a flush hangs: nothing else is looked for then.
pub(crate) const STALLED: [Row; 1] = [Row {
    head: "# HELP lambda_broker_problem 1 where this is wrong, else 0.\n# TYPE lambda_broker_problem gauge\n",
    name: "lambda_broker_problem{reason=\"disk_hangs\"}",
    metric: Metric::Problem(0),
}];

/// What was noticed of the premises.
pub(crate) const PREMISES: [Row; 4] = [
    Row {
        head: "# HELP lambda_broker_flush_seconds Time that the flush has taken that is under way, once these are five seconds, else 0.\n# TYPE lambda_broker_flush_seconds gauge\n",
        name: "lambda_broker_flush_seconds",
        metric: Metric::Notice(NoticeMetric::Flush),
    },
    Row {
        head: "# HELP lambda_broker_clock_step_seconds Time by which the clock was set last, below 0 where it was set back.\n# TYPE lambda_broker_clock_step_seconds gauge\n",
        name: "lambda_broker_clock_step_seconds",
        metric: Metric::Notice(NoticeMetric::ClockStep),
    },
    Row {
        head: "# HELP lambda_broker_clock_steps_total Times that the clock was set.\n# TYPE lambda_broker_clock_steps_total counter\n",
        name: "lambda_broker_clock_steps_total",
        metric: Metric::Notice(NoticeMetric::ClockSteps),
    },
    Row {
        head: "# HELP lambda_broker_lines_dropped_total Lines that standard error did not take.\n# TYPE lambda_broker_lines_dropped_total counter\n",
        name: "lambda_broker_lines_dropped_total",
        metric: Metric::Notice(NoticeMetric::LinesDropped),
    },
];

/// What is allowed at most.
pub(crate) const LIMITS: [Row; 7] = [
    Row {
        head: "# HELP lambda_broker_table_limit Events that are held at most.\n# TYPE lambda_broker_table_limit gauge\n",
        name: "lambda_broker_table_limit",
        metric: Metric::Limit(LimitMetric::Events),
    },
    Row {
        head: "# HELP lambda_broker_attempts_limit Attempts that run at once at most.\n# TYPE lambda_broker_attempts_limit gauge\n",
        name: "lambda_broker_attempts_limit",
        metric: Metric::Limit(LimitMetric::Concurrency),
    },
    Row {
        head: "# HELP lambda_broker_timeout_seconds Time that an attempt may take.\n# TYPE lambda_broker_timeout_seconds gauge\n",
        name: "lambda_broker_timeout_seconds",
        metric: Metric::Limit(LimitMetric::Timeout),
    },
    Row {
        head: "# HELP lambda_broker_retries_limit Retries of a new event.\n# TYPE lambda_broker_retries_limit gauge\n",
        name: "lambda_broker_retries_limit",
        metric: Metric::Limit(LimitMetric::Retries),
    },
    Row {
        head: "# HELP lambda_broker_age_limit_seconds Age at which a new event is given up.\n# TYPE lambda_broker_age_limit_seconds gauge\n",
        name: "lambda_broker_age_limit_seconds",
        metric: Metric::Limit(LimitMetric::Age),
    },
    Row {
        head: "# HELP lambda_broker_payload_limit_bytes Greatest payload.\n# TYPE lambda_broker_payload_limit_bytes gauge\n",
        name: "lambda_broker_payload_limit_bytes",
        metric: Metric::Limit(LimitMetric::Payload),
    },
    Row {
        head: "# HELP lambda_broker_response_limit_bytes Greatest response.\n# TYPE lambda_broker_response_limit_bytes gauge\n",
        name: "lambda_broker_response_limit_bytes",
        metric: Metric::Limit(LimitMetric::Response),
    },
];
