// Laws of what comes of a task: each function's contract is one, and its body does nothing.
ghost use Rattle.held_tasks.specs.Laws.{QueriesReadNow, TasksAnswerRequests};

/// What comes of the task that a request asks for is what comes of the request.
pub fn tasks_answer_requests()
    ensures { TasksAnswerRequests }
{}

/// A request that reads has read what the row has seen when it comes back.
pub fn queries_read_now()
    ensures { QueriesReadNow }
{}
